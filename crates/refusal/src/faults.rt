// The faults of each layer, the refusal that holds one whole, and what it tells.
ghost use Rattle.std.specs.Prelude.{◌≡◌, Some};
ghost use Rattle.refusal.specs.Texts.{layer_text, told_text};
ghost use Rattle.refusal.specs.Numbers.{number_of_text, number_of_table, number_of_docket, number_of_certificate, number_of_refutation};

use std::fmt;

// The layer that a refusal comes from.
#[derive(Clone, Copy, PartialEq, Eq, Debug)]
pub enum Layer {
    Text,
    Table,
    Docket,
    Certificate,
    Refutation,
}

// What a reader of circuit text refuses.
#[derive(Clone, Copy, PartialEq, Eq, Debug)]
pub enum TextFault {
    // the first line is no header
    Header,
    // the variables are not inputs, latches and gates
    Sum,
    // too many variables, or not 1 to 32 outputs
    Bounds,
    // the circuit area is too short
    ShortArea,
    // a line is missing or out of form
    Form,
    // a line does not begin with its own literal
    FirstNumber,
    // a next literal, output or operand is out of range
    Literal,
}

// A fault of circuit text and the first byte of its line.
#[derive(Clone, Copy, PartialEq, Eq, Debug)]
pub struct TextRefusal {
    pub fault: TextFault,
    pub offset: usize,
}

// What a reader of step tables refuses.
#[derive(Clone, Copy, PartialEq, Eq, Debug)]
pub enum TableFault {
    // the first record does not give the sizes
    NoSizes,
    // too many inputs and state bits, or not 1 to 32 rules
    Sizes,
    // a row is missing or cut
    NoRow,
    // a next state or the broken rules of a row are out of range
    RowNumbers,
    // the end record is missing, or a byte follows it
    Ending,
}

// A fault of a step table and the first byte of its record.
#[derive(Clone, Copy, PartialEq, Eq, Debug)]
pub struct TableRefusal {
    pub fault: TableFault,
    pub offset: usize,
}

// That an area has no free entry for what was to be put there.
#[derive(Clone, Copy, PartialEq, Eq, Debug)]
pub struct Full;

// What is refused of a call itself.
#[derive(Clone, Copy, PartialEq, Eq, Debug)]
pub enum DocketFault {
    // the machine has no such rule
    NoRule,
    // a work area does not fit
    UnfitArea,
    // the docket has counted as many hand ins as it may
    TooMany,
    // the rule is open, so there is nothing to strike
    NotEntered,
}

// What is refused of a record of a certificate.
#[derive(Clone, Copy, PartialEq, Eq, Debug)]
pub enum CertificateFault {
    // no known kind, or its body is cut
    NoRecord,
    // the record may not come here
    OutOfPlace,
    // a number in it is wrong
    WrongNumber,
    // a work area has no room for it
    Full,
    // a clause of the first frame does not hold in the start
    NotAtStart,
    // the last row does not break the rule
    Unbroken,
    // a step of the refutation is refused
    Refutation(RefutationFault),
}

// A fault of a certificate, the first byte of its record, and the number of the question under refutation (0 before the first).
#[derive(Clone, Copy, PartialEq, Eq, Debug)]
pub struct CertificateRefusal {
    pub fault: CertificateFault,
    pub offset: usize,
    pub question: u32,
}

// What is refused of a step of a refutation.
#[derive(Clone, Copy, PartialEq, Eq, Debug)]
pub enum RefutationFault {
    // the list, or the refutation, has no such clause
    NoClause,
    // the pivot is not in the left clause, or its denial not in the right one
    NoPivot,
    // the new clause does not fit into the areas
    Full,
    // there is no clause, or the latest is not empty
    NotRefuted,
}

// A refusal: the fault of one layer, whole.
#[derive(Clone, Copy, PartialEq, Eq, Debug)]
pub enum Refusal {
    Text(TextRefusal),
    Table(TableRefusal),
    Docket(DocketFault),
    Certificate(CertificateRefusal),
    Refutation(RefutationFault),
}

// What every refusal tells.
#[derive(Clone, Copy, PartialEq, Eq, Debug)]
pub struct Told {
    pub number: u32,
    pub layer: Layer,
    pub offset: usize,
    pub question: u32,
}

impl TextFault {
    pub fn number(&self) -> u32
        ensures { result ≡ number_of_text self.now }
    {
        match self {
            TextFault::Header => 11,
            TextFault::Sum => 12,
            TextFault::Bounds => 13,
            TextFault::ShortArea => 14,
            TextFault::Form => 15,
            TextFault::FirstNumber => 16,
            TextFault::Literal => 17,
        }
    }

    // The refusal for this fault in the line that begins at an offset.
    pub fn at(self, offset: usize) -> TextRefusal
        ensures { result ≡ record { fault = self; offset = offset } }
    {
        TextRefusal {
            fault: self,
            offset,
        }
    }
}

impl TableFault {
    pub fn number(&self) -> u32
        ensures { result ≡ number_of_table self.now }
    {
        match self {
            TableFault::NoSizes => 41,
            TableFault::Sizes => 42,
            TableFault::NoRow => 43,
            TableFault::RowNumbers => 44,
            TableFault::Ending => 45,
        }
    }

    // The refusal for this fault in the record that begins at an offset.
    pub fn at(self, offset: usize) -> TableRefusal
        ensures { result ≡ record { fault = self; offset = offset } }
    {
        TableRefusal {
            fault: self,
            offset,
        }
    }
}

impl DocketFault {
    pub fn number(&self) -> u32
        ensures { result ≡ number_of_docket self.now }
    {
        match self {
            DocketFault::NoRule => 21,
            DocketFault::UnfitArea => 22,
            DocketFault::TooMany => 31,
            DocketFault::NotEntered => 32,
        }
    }
}

impl CertificateFault {
    pub fn number(&self) -> u32
        ensures { result ≡ number_of_certificate self.now }
    {
        match self {
            CertificateFault::NoRecord => 23,
            CertificateFault::OutOfPlace => 24,
            CertificateFault::WrongNumber => 25,
            CertificateFault::Full => 27,
            CertificateFault::NotAtStart => 28,
            CertificateFault::Unbroken => 30,
            CertificateFault::Refutation(fault) => fault.number(),
        }
    }

    // The refusal for this fault in the record that begins at an offset, under a question.
    pub fn at(self, offset: usize, question: u32) -> CertificateRefusal
        ensures { result ≡ record { fault = self; offset = offset; question = question } }
    {
        CertificateRefusal {
            fault: self,
            offset,
            question,
        }
    }
}

impl RefutationFault {
    pub fn number(&self) -> u32
        ensures { result ≡ number_of_refutation self.now }
    {
        match self {
            RefutationFault::NoClause => 25,
            RefutationFault::NoPivot => 26,
            RefutationFault::Full => 27,
            RefutationFault::NotRefuted => 29,
        }
    }
}

impl fmt::Display for Layer {
    ghost output = { λ l. Some (layer_text l) };

    fn fmt<W: fmt::Write>(&self, f: &mut fmt::Formatter<W>) -> fmt::Result {
        match self {
            Layer::Text => write!(f, "text"),
            Layer::Table => write!(f, "table"),
            Layer::Docket => write!(f, "docket"),
            Layer::Certificate => write!(f, "certificate"),
            Layer::Refutation => write!(f, "refutation"),
        }
    }
}

impl fmt::Display for Told {
    ghost output = { λ t. Some (told_text t) };

    fn fmt<W: fmt::Write>(&self, f: &mut fmt::Formatter<W>) -> fmt::Result {
        let Told {
            number,
            layer,
            offset,
            question,
        } = *self;
        write!(f, "{number} {layer}, offset {offset}, question {question}")
    }
}
