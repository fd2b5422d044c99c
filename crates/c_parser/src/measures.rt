ghost use Rattle.std.specs.Prelude.{◌≡◌, ◌+◌};
ghost use Rattle.parse_machine.specs.Heights as hi;
ghost use Rattle.parse_stack.specs.View as v;
ghost use Rattle.parse_values.specs.ModeView.{fork, waiting, mode};

use parse_stack::{
    Declaring, Outer, above, around_high, attributed_high, attributes_height, declared_high, depth,
    inner_high, is_list, listing_high, parameters_high, place_depth,
};
use parse_values::{Fork, Mode, Waiting};

fn fork_high(f: &Fork, offsets: &[u32]) -> usize
    ensures { result ≡ hi.fork_high (fork f.now) offsets.now }
{
    match f {
        Fork::Cast(_, k) | Fork::Sizeof(_, _, k) => inner_high(k, 2),
        Fork::Block(o) => depth(o) + 2,
        Fork::For(_, _, _, o) => {
            if offsets.is_empty() {
                depth(o) + 2
            } else {
                depth(o) + 3
            }
        }
    }
}

fn waiting_high(x: &Waiting) -> usize
    ensures { result ≡ hi.waiting_high (waiting x.now) }
{
    match x {
        Waiting::Test(_, _, o)
        | Waiting::While(_, _, o)
        | Waiting::Do(_, _, _, o)
        | Waiting::For(_, o)
        | Waiting::Default(_, o) => depth(o) + 2,
        Waiting::Done(_, _, _, o)
        | Waiting::Goto(_, _, _, o)
        | Waiting::Break(_, o)
        | Waiting::Continue(_, o) => depth(o) + 1,
        Waiting::Void(d, _, _) => parameters_high(&d.around, 1),
        Waiting::List(d, _) => declared_high(d, 2),
        Waiting::Attribute(_, _, on) => attributed_high(on),
    }
}

fn begin_high(o: &Outer) -> usize
    ensures { result ≡ hi.begin_high (v.outer o.now) }
{
    if is_list(o) { depth(o) } else { depth(o) + 1 }
}

/// Inside of a declaration.
fn declaring_high(d: &Declaring, h: u32) -> usize
    ensures { result ≡ hi.place_depth (v.place d.now.place.value) + 1 + h }
{
    place_depth(&d.place) + 1 + h as usize
}

/// The height that every tree with these tokens has, where it is more than that of the parts behind.
pub fn low(m: &Mode) -> usize
    ensures { result ≡ hi.low (mode m.now) }
{
    match m {
        Mode::File | Mode::Finished => 0,
        Mode::Ended(_, h) => *h as usize,
        Mode::Specifiers(s, w) => around_high(w, s.height),
        Mode::Enumeration(_, s, w) | Mode::Tagged(_, _, _, s, w) => {
            around_high(w, s.height.max(1))
        }
        Mode::Constant(l) | Mode::Named(l, _, _) => listing_high(l),
        Mode::Attribute(_, _, _, _, on) => attributed_high(on),
        Mode::Next(d, _) => declaring_high(d, d.before.height.max(1)),
        Mode::Behind(d) => declared_high(d, attributes_height(&d.attributes)),
        Mode::Listed(d) => declaring_high(d, d.before.height),
        Mode::Parameters(d, _) => parameters_high(&d.around, 1),
        Mode::Parameter(d, _, row, _, s, _, _) => {
            parameters_high(&d.around, above(row.height.max(above(s.height))))
        }
        Mode::Skipped(..) => 2,
        Mode::Begin(o) => begin_high(o),
        Mode::Wait(x) => waiting_high(x),
        Mode::Either(f, offsets) => fork_high(f, offsets),
        Mode::Goto(_, o) | Mode::Whole(_, o) => depth(o) + 1,
        Mode::Operand(k) => inner_high(k, 1),
        Mode::Maybe(k) => inner_high(k, 0),
        Mode::Sizeof(_, k) => inner_high(k, 2),
        Mode::Value(e, k) => inner_high(k, e.height),
        Mode::Label(_, _, _, _, o) => depth(o) + 2,
    }
}
