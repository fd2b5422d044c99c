//! Typed trees as text: their values, statements, objects and functions, and what is known of them once they are examined. `$N` is an
//! object and `fN` a function by number, and a kind stands at each node that has one.

use crate::{Page, Shown, change_word, kind_word, name_word, operator_word, result_word};
use c_rules::{Examined, LabelAt};
use c_typed::{Function, Object, Owner, Step, Target, Value};
use lv_base::Kind;

// Writes a value.
#[cycle(show)]
fn show_value(page: &mut Page, value: &Value) {
    match value {
        Value::Constant(kind, n) => show_constant(page, *kind, *n),
        Value::Read(kind, object) => show_read(page, *kind, *object),
        Value::Element(kind, _, array, index) => {
            show_element(page, *array, index);
            show_kind(page, *kind);
        }
        Value::Whole(object) => show_object_number(page, *object),
        Value::Nothing => page.put("nothing"),
        Value::Convert(kind, v) => show_one(page, "", kind_word(*kind), v),
        Value::Discard(v) => show_one(page, "", "void", v),
        Value::Negate(kind, _, v) => show_one(page, "-", kind_word(*kind), v),
        Value::Complement(kind, _, v) => show_one(page, "~", kind_word(*kind), v),
        Value::Not(v) => show_one(page, "!", "", v),
        // `(a +int b)`
        Value::Binary(op, kind, _, a, b) => {
            show_left(page, a);
            show_sign(page, operator_word(*op), kind_word(*kind));
            show_right(page, b);
        }
        Value::Both(a, b) => {
            show_left(page, a);
            show_sign(page, "&&", "");
            show_right(page, b);
        }
        Value::Either(a, b) => {
            show_left(page, a);
            show_sign(page, "||", "");
            show_right(page, b);
        }
        // `(c ?kind a : b)`
        Value::Cond(kind, test, a, b) => {
            show_left(page, test);
            show_sign(page, "?", result_word(*kind));
            show_value(page, a);
            page.put(" : ");
            show_right(page, b);
        }
        // `(t =kind v)`
        Value::Assign(kind, _, target, v) => {
            show_written(page, target);
            show_sign(page, "=", kind_word(*kind));
            show_right(page, v);
        }
        // `(t int+=kind v)`, where the operation is in a kind of its own
        Value::Update(op, kind, left, _, target, v) => {
            show_written(page, target);
            show_update(page, kind_word(*kind), operator_word(*op), kind_word(*left));
            show_right(page, v);
        }
        Value::Change(before, by, kind, _, target) => {
            show_change(page, *before, change_word(*by), kind_word(*kind), target);
        }
        Value::Call(kind, _, _, function, values) => {
            show_call(page, result_word(*kind), *function, values);
        }
        Value::Reach(_) => page.put("reach"),
        Value::Abort => page.put("abort"),
        Value::Draw(kind) => show_draw(page, *kind),
        // `(v, v)`
        Value::Comma(values, last) => {
            page.put("(");
            show_values(page, values);
            page.put(", ");
            show_right(page, last);
        }
    }
}

// `word(v)`
#[cycle(show)]
fn show_one(page: &mut Page, sign: &str, word: &str, value: &Value) {
    page.put(sign);
    page.put(word);
    page.put("(");
    show_value(page, value);
    page.put(")");
}

// `(v`
#[cycle(show)]
fn show_left(page: &mut Page, value: &Value) {
    page.put("(");
    show_value(page, value);
}

// `v)`
#[cycle(show)]
fn show_right(page: &mut Page, value: &Value) {
    show_value(page, value);
    page.put(")");
}

// `(t`
#[cycle(show)]
fn show_written(page: &mut Page, target: &Target) {
    page.put("(");
    show_target(page, target);
}

// `(++kind t)`, or `(t ++kind)`
#[cycle(show)]
fn show_change(page: &mut Page, before: bool, sign: &str, kind: &str, target: &Target) {
    page.put("(");
    if before {
        page.put(sign);
        page.put(kind);
        page.put(" ");
        show_target(page, target);
    } else {
        show_target(page, target);
        page.put(" ");
        page.put(sign);
        page.put(kind);
    }
    page.put(")");
}

#[cycle(show)]
fn show_target(page: &mut Page, target: &Target) {
    match target {
        Target::Object(object) => show_object_number(page, *object),
        Target::Element(_, array, index) => show_element(page, *array, index),
    }
}

// `$N[v]`
#[cycle(show)]
fn show_element(page: &mut Page, array: u32, index: &Value) {
    show_object_number(page, array);
    page.put("[");
    show_value(page, index);
    page.put("]");
}

// `fN(v, v):kind`
#[cycle(show)]
fn show_call(page: &mut Page, kind: &str, function: u32, values: &[Value]) {
    page.put("f");
    page.number(i128::from(function));
    page.put("(");
    show_values(page, values);
    page.put("):");
    page.put(kind);
}

// Writes values with a comma between them.
#[cycle(show)]
fn show_values(page: &mut Page, values: &[Value]) {
    for (i, value) in values.iter().enumerate() {
        if i > 0 {
            page.put(", ");
        }
        show_value(page, value);
    }
}

// Writes an object's number.
fn show_object_number(page: &mut Page, object: u32) {
    page.put("$");
    page.number(i128::from(object));
}

// Writes a kind behind what has it.
fn show_kind(page: &mut Page, kind: Kind) {
    page.put(":");
    page.put(kind_word(kind));
}

// ` +int `
fn show_sign(page: &mut Page, sign: &str, kind: &str) {
    page.put(" ");
    page.put(sign);
    page.put(kind);
    page.put(" ");
}

// ` int+=kind `
fn show_update(page: &mut Page, own: &str, sign: &str, kind: &str) {
    page.put(" ");
    page.put(own);
    page.put(sign);
    page.put("=");
    page.put(kind);
    page.put(" ");
}

fn show_constant(page: &mut Page, kind: Kind, n: i128) {
    page.number(n);
    show_kind(page, kind);
}

fn show_read(page: &mut Page, kind: Kind, object: u32) {
    show_object_number(page, object);
    show_kind(page, kind);
}

fn show_draw(page: &mut Page, kind: Kind) {
    page.put("draw");
    show_kind(page, kind);
}

// Writes steps between curly brackets.
#[cycle(steps)]
fn show_steps(page: &mut Page, steps: &[Step]) {
    page.put("{ ");
    for step in steps {
        show_step(page, step);
    }
    page.put("} ");
}

#[cycle(steps)]
fn show_step(page: &mut Page, step: &Step) {
    match step {
        Step::Block(steps) => show_steps(page, steps),
        // without an `else`
        Step::If(test, inner) => {
            show_guard(page, "when", "", test);
            show_step(page, inner);
        }
        Step::IfElse(test, left, right) => {
            show_guard(page, "if", "", test);
            show_step(page, left);
            page.put("else ");
            show_step(page, right);
        }
        Step::While(_, test, inner) => {
            show_guard(page, "while", "", test);
            show_step(page, inner);
        }
        Step::Switch(_, kind, value, inner) => {
            show_guard(page, "switch ", kind_word(*kind), value);
            show_step(page, inner);
        }
        Step::Do(_, inner, test) => {
            page.put("do ");
            show_step(page, inner);
            show_guard(page, "while", "", test);
        }
        Step::For(_, start, test, third, inner) => {
            page.put("for ");
            show_steps(page, start);
            show_two(page, test, third);
            show_step(page, inner);
        }
        Step::Case(_, n, inner) => {
            show_case(page, *n);
            show_step(page, inner);
        }
        Step::Default(_, inner) => {
            page.put("default: ");
            show_step(page, inner);
        }
        Step::Label(name, _, inner) => {
            show_label(page, name_word(name));
            show_step(page, inner);
        }
        _ => show_leaf(page, step),
    }
}

// `case n: `
fn show_case(page: &mut Page, n: i128) {
    page.put("case ");
    page.number(n);
    page.put(": ");
}

// `label: `
fn show_label(page: &mut Page, label: &str) {
    page.put(label);
    page.put(": ");
}

// `v; v; `
fn show_two(page: &mut Page, test: &Option<Box<Value>>, third: &Option<Box<Value>>) {
    show_some(page, test);
    show_some(page, third);
}

// `word v `
fn show_guard(page: &mut Page, word: &str, kind: &str, value: &Value) {
    page.put(word);
    page.put(kind);
    page.put(" ");
    show_value(page, value);
    page.put(" ");
}

// `v; `, or `; ` where there is none
fn show_some(page: &mut Page, value: &Option<Box<Value>>) {
    if let Some(value) = value {
        show_value(page, value);
    }
    page.put("; ");
}

// A statement without statements in it.
fn show_leaf(page: &mut Page, step: &Step) {
    match step {
        Step::Draw(object) => show_drawn(page, *object),
        Step::Begin(object, values) => show_begin(page, *object, values),
        Step::Effect(value) => show_effect(page, value),
        Step::Goto(_, name, _) => show_goto(page, name_word(name)),
        Step::Break(_) => page.put("break; "),
        Step::Continue(_) => page.put("continue; "),
        Step::Return(_, value) => show_return(page, value),
        _ => page.put("; "),
    }
}

fn show_drawn(page: &mut Page, object: u32) {
    page.put("draw ");
    show_object_number(page, object);
    page.put("; ");
}

fn show_begin(page: &mut Page, object: u32, values: &[Value]) {
    page.put("begin ");
    show_object_number(page, object);
    page.put(" ");
    show_values(page, values);
    page.put("; ");
}

fn show_effect(page: &mut Page, value: &Value) {
    show_value(page, value);
    page.put("; ");
}

fn show_goto(page: &mut Page, name: &str) {
    page.put("goto ");
    page.put(name);
    page.put("; ");
}

fn show_return(page: &mut Page, value: &Option<Box<Value>>) {
    page.put("return ");
    show_some(page, value);
}

// Writes objects: `name@offset:kind[length] owner values; `.
fn show_objects(page: &mut Page, objects: &[Object]) {
    for object in objects {
        show_object(page, object);
    }
}

fn show_object(page: &mut Page, object: &Object) {
    show_place(page, name_word(&object.name), object.at);
    show_kind(page, object.kind);
    page.put("[");
    page.number(i128::from(object.length));
    page.put("] ");
    show_owner(page, object.owner);
    show_numbers(page, &object.first);
    page.put("; ");
}

// `name@offset`
fn show_place(page: &mut Page, name: &str, at: u32) {
    page.put(name);
    page.put("@");
    page.number(i128::from(at));
}

fn show_owner(page: &mut Page, owner: Owner) {
    match owner {
        Owner::Static => page.put("static"),
        Owner::Local(function) => show_function_number(page, function),
    }
}

fn show_function_number(page: &mut Page, function: u32) {
    page.put("f");
    page.number(i128::from(function));
}

// Each number behind a blank.
fn show_numbers(page: &mut Page, numbers: &[i128]) {
    for number in numbers {
        page.put(" ");
        page.number(*number);
    }
}

// Writes functions: `name@offset:kind($N) { .. } `.
fn show_functions(page: &mut Page, functions: &[Function]) {
    for function in functions {
        show_function(page, function);
    }
}

fn show_function(page: &mut Page, function: &Function) {
    show_place(page, name_word(&function.name), function.at);
    page.put(":");
    page.put(result_word(function.result));
    page.put("(");
    show_parameters(page, &function.parameters);
    page.put(") ");
    show_steps(page, &function.body);
}

fn show_parameters(page: &mut Page, parameters: &[u32]) {
    for number in parameters {
        page.put("$");
        page.number(i128::from(*number));
    }
}

// Writes the body of the last function.
fn show_last_body(page: &mut Page, functions: &[Function]) {
    if let Some(function) = functions.last() {
        show_steps(page, &function.body);
    }
}

// Writes an order of the functions in which each stands behind those that it calls, and the labels: `1 0; fN name@offset; `.
fn show_examined(page: &mut Page, examined: &Examined) {
    show_order(page, examined.order());
    page.put("; ");
    show_labels(page, examined.labels());
}

fn show_order(page: &mut Page, order: &[u32]) {
    for (i, number) in order.iter().enumerate() {
        if i > 0 {
            page.put(" ");
        }
        page.number(i128::from(*number));
    }
}

fn show_labels(page: &mut Page, labels: &[LabelAt]) {
    for label in labels {
        show_function_number(page, label.function);
        page.put(" ");
        show_place(page, name_word(&label.name), label.at);
        page.put("; ");
    }
}

/// Objects: `name@offset:kind[length] owner values; `.
#[derive(Clone, Copy)]
pub(crate) struct Objects<'a> {
    pub(crate) all: &'a [Object],
}

impl Shown for Objects<'_> {
    fn show(&self, page: &mut Page) {
        show_objects(page, self.all);
    }
}

/// Functions: `name@offset:kind($N) { .. } `.
#[derive(Clone, Copy)]
pub(crate) struct Functions<'a> {
    pub(crate) all: &'a [Function],
}

impl Shown for Functions<'_> {
    fn show(&self, page: &mut Page) {
        show_functions(page, self.all);
    }
}

/// The body of the last of functions.
#[derive(Clone, Copy)]
pub(crate) struct LastBody<'a> {
    pub(crate) all: &'a [Function],
}

impl Shown for LastBody<'_> {
    fn show(&self, page: &mut Page) {
        show_last_body(page, self.all);
    }
}

/// An order of the functions in which each stands behind those that it calls, and the labels: `1 0; fN name@offset; `.
#[derive(Clone, Copy)]
pub(crate) struct Known<'a> {
    pub(crate) program: &'a Examined,
}

impl Shown for Known<'_> {
    fn show(&self, page: &mut Page) {
        show_examined(page, self.program);
    }
}
