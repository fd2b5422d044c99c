ghost use Rattle.std.specs.Prelude.{◌≡◌, pos, true, false, if◌then◌else◌};
ghost use Rattle.lv_base.specs.Integers as int;
ghost use Rattle.c_meaning.specs.Kinds as k;

use c_lexer::NumberForm;
use lv_base::{Kind, Model, in_range};

fn or_next(model: Model, value: u64, kind: Kind, next: Kind) -> Kind
    ensures { result ≡ (if int.is_in_range kind model (pos value) then kind else next) }
{
    if in_range(kind, model, value as i128) {
        kind
    } else {
        next
    }
}

fn unsigned_kind(model: Model, value: u64, longs: u8) -> Kind
    ensures decimal { result ≡ k.number_kind_of model value true true longs }
    ensures other { result ≡ k.number_kind_of model value false true longs }
{
    match longs {
        0 => or_next(
            model,
            value,
            Kind::UInt,
            or_next(model, value, Kind::ULong, Kind::ULongLong),
        ),
        1 => or_next(model, value, Kind::ULong, Kind::ULongLong),
        _ => Kind::ULongLong,
    }
}

fn decimal_kind(model: Model, value: u64, longs: u8) -> Kind
    ensures { result ≡ k.number_kind_of model value true false longs }
{
    match longs {
        0 => or_next(
            model,
            value,
            Kind::Int,
            or_next(model, value, Kind::Long, Kind::LongLong),
        ),
        1 => or_next(model, value, Kind::Long, Kind::LongLong),
        _ => Kind::LongLong,
    }
}

fn from_long(model: Model, value: u64) -> Kind
    ensures { result ≡ k.number_kind_of model value false false 1 }
{
    or_next(
        model,
        value,
        Kind::Long,
        or_next(
            model,
            value,
            Kind::ULong,
            or_next(model, value, Kind::LongLong, Kind::ULongLong),
        ),
    )
}

fn other_kind(model: Model, value: u64, longs: u8) -> Kind
    ensures { result ≡ k.number_kind_of model value false false longs }
{
    match longs {
        0 => or_next(
            model,
            value,
            Kind::Int,
            or_next(model, value, Kind::UInt, from_long(model, value)),
        ),
        1 => from_long(model, value),
        _ => or_next(model, value, Kind::LongLong, Kind::ULongLong),
    }
}

/// The kind of a constant: the first of its form's list that holds its value (C11 6.4.4.1).
pub fn number_kind(model: Model, value: u64, form: NumberForm) -> Kind
    ensures { result ≡ k.number_kind model value form }
{
    let longs = form.longs;
    if form.unsigned_suffix {
        unsigned_kind(model, value, longs)
    } else if form.decimal {
        decimal_kind(model, value, longs)
    } else {
        other_kind(model, value, longs)
    }
}
