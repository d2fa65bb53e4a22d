// What a formula reads.
ghost use Rattle.std.specs.Prelude.{◌≡◌, IfOk};

use grid_address::Span;
use lics_text::Memory;
use std::alloc::Global;
use std::marker::Model;

// Up to three spans stand by themselves, and more in a list.
#[derive(Drop)]
pub(crate) enum Listed {
    None,
    One([Span; 1]),
    Two([Span; 2]),
    Three([Span; 3]),
    Many(Vec<Span>),
}

/// The spans that a formula reads, from left to right. Up to three of them take no memory of their own.
#[derive(Drop)]
pub struct Reads {
    listed: Listed,
}

impl Model for Reads {
    ghost use Rattle.std.specs.Prelude.{List};
    ghost use Rattle.grid_address.specs.Place.{Extent};
    ghost use Rattle.depend_graph.specs.inner.Listed.{spans_listed};

    ghost Value = { List Extent };

    ghost view = { λ r. spans_listed r.listed };
}

impl Reads {
    /// These spans.
    pub fn of(alloc: Global, spans: &[Span]) -> Result<Reads, Memory>
        ensures { IfOk result (λ r. r ≡ spans.now) }
    {
        let listed = match spans {
            [] => Listed::None,
            [only] => Listed::One([*only]),
            [first, second] => Listed::Two([*first, *second]),
            [first, second, third] => Listed::Three([*first, *second, *third]),
            _ => Listed::Many(Vec::from_slice(alloc, spans)?),
        };
        Ok(Reads { listed })
    }

    /// The spans as a slice.
    #[inline(always)]
    pub fn as_slice(&self) -> &[Span]
        ensures { result.now ≡ self.now }
    {
        match &self.listed {
            Listed::None => &[],
            Listed::One(spans) => spans,
            Listed::Two(spans) => spans,
            Listed::Three(spans) => spans,
            Listed::Many(spans) => spans.as_slice(),
        }
    }
}

/// A formula as it reads: its spans, from left to right, and whether it is volatile.
#[derive(Drop)]
pub struct Node {
    pub reads: Reads,
    pub volatile: bool,
}
