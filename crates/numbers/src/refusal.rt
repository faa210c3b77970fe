// The refusals: document 01's first, then those of document 02. The library's header has their names and numbers.
ghost use Rattle.std.specs.Prelude.{◌≡◌};
ghost use Rattle.numbers.specs.Refusals.{number_of, refused_number};

#[derive(Clone, Copy, Debug, PartialEq, Eq)]
pub enum Refusal {
    TooShort,
    TooLong,
    AccessCode,
    ArrivalPort,
    Clock,
    Output,
    Tables,
    Map,
    Setting,
    LocalFull,
    LocalAddress,
    // A mark's.
    NoLivePath,
    // Those of recordings and saved files.
    FileLength,
    FileKind,
    FilePlace,
    SignatureWord,
    FileBody,
    Room,
    // Of announces of our own, of the second opinion and of the survey.
    AnnouncePart,
    AnnounceTooLong,
    ListFull,
    SurveyFull,
}

impl Refusal {
    pub fn number(self) -> u8
        ensures { result ≡ number_of self }
    {
        match self {
            Refusal::TooShort => 1,
            Refusal::TooLong => 2,
            Refusal::AccessCode => 3,
            Refusal::ArrivalPort => 4,
            Refusal::Clock => 5,
            Refusal::Output => 6,
            Refusal::Tables => 7,
            Refusal::Map => 8,
            Refusal::Setting => 9,
            Refusal::LocalFull => 10,
            Refusal::LocalAddress => 11,
            Refusal::NoLivePath => 12,
            Refusal::FileLength => 20,
            Refusal::FileKind => 21,
            Refusal::FilePlace => 22,
            Refusal::SignatureWord => 23,
            Refusal::FileBody => 24,
            Refusal::Room => 25,
            Refusal::AnnouncePart => 26,
            Refusal::AnnounceTooLong => 27,
            Refusal::ListFull => 28,
            Refusal::SurveyFull => 29,
        }
    }
}

// What a call returns to a host: the refusal's number, or 0.
pub fn refused_number(answer: Result<(), Refusal>) -> u8
    ensures { result ≡ refused_number answer }
{
    match answer {
        Ok(()) => 0,
        Err(refusal) => refusal.number(),
    }
}
