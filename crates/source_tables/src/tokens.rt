//! Tokens as text: what each is, and between which offsets it stands.

use crate::{Page, Shown, name_word};
use c_lexer::{NumberForm, Token, TokenKind};

/// Tokens, with a blank between them.
#[derive(Clone, Copy)]
pub(crate) struct Tokens<'a> {
    pub(crate) all: &'a [Token],
}

impl Shown for Tokens<'_> {
    fn show(&self, page: &mut Page) {
        for (i, token) in self.all.iter().enumerate() {
            if i > 0 {
                page.put(" ");
            }
            show_token(page, token);
        }
    }
}

// `what@first-behind`
fn show_token(page: &mut Page, token: &Token) {
    show_kind(page, &token.kind);
    page.put("@");
    page.number(i128::from(token.at));
    page.put("-");
    page.number(i128::from(token.end));
}

fn show_kind(page: &mut Page, kind: &TokenKind) {
    match kind {
        TokenKind::Word(name) => page.put(name_word(name)),
        TokenKind::Number(value, form) => show_constant(page, *value, *form),
        TokenKind::Letter(value) => show_letter(page, *value),
        TokenKind::Str => page.put("string"),
        TokenKind::Mark(mark) => page.put(mark.text()),
        TokenKind::End => page.put("end"),
    }
}

// `'97`
fn show_letter(page: &mut Page, value: i32) {
    page.put("'");
    page.number(i128::from(value));
}

// `#31`, with a `d` where it is in decimal digits, a `u`, and each `l` of its suffix
fn show_constant(page: &mut Page, value: u64, form: NumberForm) {
    page.put("#");
    page.number(i128::from(value));
    put_if(page, form.decimal, "d");
    put_if(page, form.unsigned_suffix, "u");
    put_if(page, form.longs == 1, "l");
    put_if(page, form.longs == 2, "ll");
}

fn put_if(page: &mut Page, is_so: bool, words: &str) {
    if is_so {
        page.put(words);
    }
}
