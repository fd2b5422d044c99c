//! Readers: what was read of a certificate, and where reading stands in it. A reader that begins before a log reads a stretch of logs by
//! itself; behind another one that stands there it says what one reader would have said.

ghost use Rattle.std.specs.Prelude.{◌≡◌, ◌⊎◌, true, Ok, Err, IfSome, MatchResult};
ghost use Rattle.stored_text.specs.declared.StoredFail.{StoredFail};
ghost use Rattle.cert_text.specs.declared.place.Fixed.{Fixed};
ghost use Rattle.cert_text.specs.declared.place.Slot.{Slot};
ghost use Rattle.cert_text.specs.declared.place.Part.{Part};
ghost use Rattle.cert_text.specs.Content.{content_of};
ghost use Rattle.cert_text.specs.Drafts.{said_of, nothing, content_said};
ghost use Rattle.cert_text.specs.Places.{is_done_at};
ghost use Rattle.cert_text.specs.Reading.{start};
ghost use Rattle.cert_text.specs.Steps.{place_of};
ghost use Rattle.cert_text.specs.Walks.{state, state_of, walk, front_of, before_log, joined};

use crate::Cert;
use crate::draft::Draft;
use crate::pairs::{Quick, quick_step};
use crate::place::{Fixed, Part, Place, Slot};
use crate::steps::{Next, step};
use lv_base::Model;
use std::alloc::Global;
use stored_text::StoredFail;

/// What stands before the terms of a certificate.
#[derive(Clone, Copy)]
pub struct Front {
    /// The hash of the source.
    pub hash: [u8; 32],
    /// The data model.
    pub model: Model,
    /// The layout of the graph's numbers.
    pub layout: u32,
}

/// What was read of a certificate, and where reading stands in it.
#[derive(Drop)]
pub struct Reader {
    draft: Draft,
    place: Place,
    part: Part,
}

// Whether a place is one before a log, where so many logs are left.
fn is_log_place(place: Place, part: Part, left: u32) -> bool
    ensures { result ≡ true → (place ≡ place_of (Slot.Text Fixed.BeforeChains) left 0) × (part ≡ Part.Fresh) }
{
    match (place.slot, part) {
        (Slot::Text(Fixed::BeforeChains), Part::Fresh) => place.left == left && place.chains == 0,
        _ => false,
    }
}

// Before the first byte.
fn first_place() -> Place
    ensures { result ≡ start }
{
    Place {
        slot: Slot::Text(Fixed::Head),
        left: 0,
        chains: 0,
    }
}

impl Reader {
    /// Before the first byte. It takes no memory.
    pub fn new(alloc: Global) -> Reader
        ensures { state_of result ≡ state nothing start Part.Fresh }
    {
        Reader {
            draft: Draft::new(alloc),
            place: first_place(),
            part: Part::Fresh,
        }
    }

    /// Before a log of a certificate with this front, where so many logs are left. It takes no memory.
    pub fn before_log(alloc: Global, front: Front, left: u32) -> Reader
        ensures { state_of result ≡ before_log front left }
    {
        let mut draft = Draft::new(alloc);
        let hash = front.hash;
        draft.hash = hash;
        draft.model = front.model;
        draft.layout = front.layout;
        let place = Place {
            slot: Slot::Text(Fixed::BeforeChains),
            left,
            chains: 0,
        };
        Reader {
            draft,
            place,
            part: Part::Fresh,
        }
    }

    /// Reads some bytes more. A failure names the first byte with which no certificate goes on, counted from the first of these. Memory is
    /// taken by the bytes that were read.
    pub fn read_on(self, alloc: Global, bytes: &[u8]) -> Result<Reader, StoredFail>
        ensures { MatchResult result (λ r. walk (said_of self.draft) self.place self.part 0 bytes.now ≡ Ok (state_of r)) (λ e. (e ≡ StoredFail.Memory) ⊎ (walk (said_of self.draft) self.place self.part 0 bytes.now ≡ Err e)) }
    {
        let Reader {
            mut draft,
            mut place,
            mut part,
        } = self;
        for (at, byte) in bytes.iter().enumerate() {
            match quick_step(place, part, *byte) {
                Quick::Digits(value) => part = Part::Digits(value),
                Quick::Pivot(pivot) => {
                    place.slot = Slot::Clause(pivot);
                    part = Part::Fresh;
                }
                Quick::Pair(pivot, clause) => {
                    draft.add_pair(pivot, clause)?;
                    place.slot = Slot::Pivot;
                    part = Part::Fresh;
                }
                Quick::Other => match step(place, part, *byte) {
                    Next::Refused => return Err(StoredFail::Format(at as u64)),
                    Next::Part(next) => part = next,
                    Next::Moves(next) => {
                        draft.apply(alloc, next)?;
                        place = next.to;
                        part = Part::Fresh;
                    }
                },
            }
        }
        Ok(Reader { draft, place, part })
    }

    /// Whether the certificate is whole.
    pub fn is_done(&self) -> bool
        ensures { result ≡ is_done_at self.now.place.slot }
    {
        self.place.slot.is_done()
    }

    /// The certificate that was read.
    pub fn into_cert(self) -> Cert
        ensures { content_of result ≡ content_said (said_of self.draft) }
    {
        self.draft.into_cert()
    }

    /// What stands before the terms, as far as it was read.
    pub fn front(&self) -> Front
        ensures { result ≡ front_of (said_of self.now.draft) }
    {
        let hash = self.draft.hash;
        Front {
            hash,
            model: self.draft.model,
            layout: self.draft.layout,
        }
    }

    /// Whether it stands before a log of a certificate with this front, where so many logs are left.
    pub fn is_before_log(&self, front: Front, left: u32) -> bool
        ensures { result ≡ true → state_of self.now ≡ joined (said_of self.now.draft) (before_log front left) }
    {
        is_log_place(self.place, self.part, left)
            && self.draft.has_front(front)
            && self.draft.is_between_logs()
    }

    /// What was read, and behind it what another reader read from a log on. There is none where that one read more than logs, or memory runs out.
    pub fn followed_by(self, next: Reader) -> Option<Reader>
        ensures { IfSome result (λ r. state_of r ≡ joined (said_of self.draft) (state_of next)) }
    {
        let Reader { draft, place, part } = next;
        let draft = self.draft.followed_by(draft)?;
        Some(Reader { draft, place, part })
    }

    /// How many terms, formulas or logs are left where reading stands.
    pub fn left(&self) -> u32
        ensures { result ≡ self.now.place.left }
    {
        self.place.left
    }
}
