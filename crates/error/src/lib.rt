// The refusals by name (docs/SCOPE.md, "Refusals"), as src/error.rs has its kinds of errors, and their numbers, which C
// gets. A call answers a `Result` whose error is one of these; `pipnn_` calls answer 0 or the number. Each number
// stands here once for the code and once in specs/Numbers for the definitions; the contract of `number` says that the
// two agree. include/pipnn.h and the Rust crate have the same names, and bindings/declarations.py compares all four.
#![tactic(auto)]

ghost use Rattle.std.specs.Prelude.{◌≡◌, false};
ghost use Rattle.error.specs.Inside.Refused.{number_of, answer_of};

#[derive(Clone, Copy, PartialEq, Eq, Debug)]
pub enum Refusal {
    // The dimension is not 1 to 64.
    DimensionOutOfRange = 1,
    // A parameter or the capacity is beyond its limits.
    ParameterOutOfRange = 2,
    // A store or scratch is too short.
    SliceTooShort = 3,
    // The store's content is not that of an index.
    NotWellFormed = 4,
    // Add to a store that is built.
    AlreadyBuilt = 5,
    // The vector's length differs from the dimension.
    DimensionMismatch = 6,
    // A component is infinite or not a number.
    NonFiniteInput = 7,
    // Add to a store that holds as many nodes as its capacity.
    Full = 8,
    // Build of a store with no nodes.
    EmptyIndex = 9,
    // Search in a store that is not built.
    NotBuilt = 10,
    // k or ef is above 1024.
    KOrEfTooLarge = 11,
    // An output is shorter than min(k, n).
    OutputTooShort = 12,
    // The limit is infinite or not a number.
    LimitNotFinite = 13,
    // More than 512 sightings, or their two lists differ in length.
    BadSightings = 14,
}

impl Refusal {
    // The number that C gets.
    // kept (4): a `From` would not say which number it is.
    pub fn number(self) -> u32
        ensures { result ≡ number_of self }
    {
        self as u32
    }
}

// What a call answers as C gets it: 0, or its refusal's number.
// kept: C gets a number.
pub fn number_or_zero(answer: Result<(), Refusal>) -> u32
    ensures { result ≡ answer_of answer }
{
    match answer {
        Ok(()) => 0,
        Err(refusal) => refusal.number(),
    }
}
