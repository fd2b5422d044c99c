ghost use Rattle.std.specs.Prelude.{◌≡◌, ◌<◌};
ghost use Rattle.std.specs.Option.{option_copied};
ghost use Rattle.type_scopes.specs.Buckets.{bucket, turned};
ghost use Rattle.type_scopes.specs.Reaching.{Within, Reaches};

/// How many buckets there are: a prime, so that names which differ in one letter spread over them.
pub(crate) const BUCKETS: usize = 65_521;

/// Two ranges, each with its ends: what holds of some declarations.
#[derive(Clone, Copy)]
pub(crate) struct Span {
    pub(crate) from: u64,
    pub(crate) to: u64,
    pub(crate) low: u64,
    pub(crate) high: u64,
}

/// Where a declaration leads: `older` is one more than the place of the last one before it in its bucket, and 0 where there is
/// none; `jump` leads further back, past those alone of its bucket that `span` holds together with this one.
///
/// The jumps are those of a skew binary list: behind two of one width comes one that passes both, so that the way back to any
/// place takes few of them.
#[derive(Clone, Copy)]
pub(crate) struct Link {
    pub(crate) older: usize,
    pub(crate) jump: usize,
    pub(crate) width: usize,
    pub(crate) span: Span,
}

/// The bucket with one byte more.
fn turn(bucket: usize, byte: u8) -> usize
    requires { bucket < 65521 }
    ensures value { result ≡ turned bucket byte }
    ensures below { result < 65521 }
{
    (bucket * 257 + byte as usize) % BUCKETS
}

/// The bucket of a name with these bytes, that of a tag or of another.
pub(crate) fn bucket_of(tag: bool, bytes: &[u8]) -> usize
    ensures value { result ≡ bucket tag bytes.now }
    ensures below { result < 65521 }
{
    let mut at = if tag { 1 } else { 0 };
    let mut rest = bytes;
    'bytes: while let Some((byte, behind)) = rest.split_first() {
        at = turn(at, *byte);
        rest = behind;
    }
    at
}

/// What holds both.
fn around(one: Span, other: Span) -> Span
    ensures one { Within one result }
    ensures other { Within other result }
{
    Span {
        from: one.from.min(other.from),
        to: one.to.max(other.to),
        low: one.low.min(other.low),
        high: one.high.max(other.high),
    }
}

fn alone(older: usize, span: Span) -> Link
    ensures older { result.older ≡ older }
    ensures jump { result.jump ≡ older }
    ensures span { Within span result.span }
{
    Link {
        older,
        jump: older,
        width: 1,
        span,
    }
}

fn past_both(older: usize, near: Link, far: Link, span: Span) -> Link
    ensures older { result.older ≡ older }
    ensures jump { result.jump ≡ far.jump }
    ensures span { Within span result.span }
    ensures near { Within near.span result.span }
    ensures far { Within far.span result.span }
{
    Link {
        older,
        jump: far.jump,
        width: near.width.saturating_add(far.width).saturating_add(1),
        span: around(span, around(near.span, far.span)),
    }
}

/// The link of a declaration behind `older`, whose link is `near`; the jump of that leads to the one whose link is `far`.
pub(crate) fn link_to(older: usize, near: Option<Link>, far: Option<Link>, span: Span) -> Link
    ensures older { result.older ≡ older }
    ensures reach { Reaches older near far span result }
{
    match near {
        None => alone(older, span),
        Some(near) => match far {
            None => alone(older, span),
            Some(far) => {
                if near.width == far.width {
                    past_both(older, near, far, span)
                } else {
                    alone(older, span)
                }
            }
        },
    }
}
