// The codes of a record's fields (document 01, 'The interval sheet').
// `code` stands with each enum, no `From`: each has a definition of its own, and `u8::from` says less than the word.
ghost use Rattle.std.specs.Prelude.{◌≡◌};
ghost use Rattle.records.specs.Codes.{rto_code, class_code, subject_code};

// The Monitoring RTO.
#[derive(Clone, Copy, Debug, PartialEq, Eq)]
pub enum Rto {
    Nyiso = 1,
    Pjm,
}

impl Rto {
    pub fn code(self) -> u8
        ensures { result ≡ rto_code self }
    {
        self as u8
    }
}

// A point's type, a PAR's class.
#[derive(Clone, Copy, Debug, PartialEq, Eq)]
pub enum Class {
    Common = 1,
    NonCommon,
}

impl Class {
    pub fn code(self) -> u8
        ensures { result ≡ class_code self }
    {
        self as u8
    }
}

// A factor's subject.
#[derive(Clone, Copy, Debug, PartialEq, Eq)]
pub enum Subject {
    Unit = 1,
    Zone,
    Point,
    Par,
}

impl Subject {
    pub fn code(self) -> u8
        ensures { result ≡ subject_code self }
    {
        self as u8
    }
}
