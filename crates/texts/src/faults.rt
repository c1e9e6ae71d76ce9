// Refusals.
ghost use Rattle.std.specs.Prelude.{◌≡◌};
ghost use Rattle.texts.specs.Faults.{layer_number, refusal};

// The layers that refuse.
#[derive(Clone, Copy, PartialEq, Eq)]
pub enum Layer {
    Text,
    Line,
    Case,
    Kit,
}

// The number that is printed of a layer, from 1.
impl From<Layer> for usize {
    ghost from_gives = { λ l n. n ≡ layer_number l };

    fn from(layer: Layer) -> usize {
        match layer {
            Layer::Text => 1,
            Layer::Line => 2,
            Layer::Case => 3,
            Layer::Kit => 4,
        }
    }
}

// What is printed of a fault, of this layer or another; places count from 0. The number is the one that a sheet prints:
// the kinds of refusals are the variants of the faults.
#[derive(Clone, Copy)]
pub struct Refusal {
    pub number: usize,
    pub layer: Layer,
    pub place: usize,
}

// Why a text is refused, in the order of the checks.
#[derive(Clone, Copy)]
pub enum TextFault {
    Empty,
    // The text has more than 512 bytes.
    TooLong,
    // A byte that no formula text has after the bytes before it, at its offset.
    Unexpected(usize),
    // The text only begins a formula; the place is its length.
    Incomplete(usize),
    // The formulas to be numbered do not fit into the table.
    Full,
}

impl From<TextFault> for Refusal {
    ghost from_gives = { λ f r. r ≡ refusal f };

    fn from(fault: TextFault) -> Refusal {
        let (number, place) = match fault {
            TextFault::Empty => (1, 0),
            TextFault::TooLong => (2, 512),
            TextFault::Unexpected(at) => (3, at),
            TextFault::Incomplete(len) => (4, len),
            TextFault::Full => (5, 0),
        };
        Refusal {
            number,
            layer: Layer::Text,
            place,
        }
    }
}
