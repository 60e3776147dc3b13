ghost use Rattle.authorities.specs.Authorities.{authority_of, number_of, text_of};
ghost use Rattle.std.specs.Prelude.{◌≡◌, ◌≤◌, Some, IfSome, IfNone};

/// What one label may do to another. Comparisons are those of the numbers.
#[derive(Clone, Copy, PartialEq, Eq, PartialOrd, Ord)]
pub enum Authority {
    Receive,
    SyncSend,
    AsyncSend,
    Reset,
    Grant,
    Read,
    Write,
    Control,
    Call,
    Reply,
    GrantBack,
    Handle,
}

/// All of them, by number.
const AUTHORITIES: [Authority; 12] = [
    Authority::Receive,
    Authority::SyncSend,
    Authority::AsyncSend,
    Authority::Reset,
    Authority::Grant,
    Authority::Read,
    Authority::Write,
    Authority::Control,
    Authority::Call,
    Authority::Reply,
    Authority::GrantBack,
    Authority::Handle,
];

impl Authority {
    /// The authority's number, below 12.
    pub fn number(self) -> u8
        ensures { result ≡ number_of self }
    {
        match self {
            Authority::Receive => 0,
            Authority::SyncSend => 1,
            Authority::AsyncSend => 2,
            Authority::Reset => 3,
            Authority::Grant => 4,
            Authority::Read => 5,
            Authority::Write => 6,
            Authority::Control => 7,
            Authority::Call => 8,
            Authority::Reply => 9,
            Authority::GrantBack => 10,
            Authority::Handle => 11,
        }
    }

    /// The authority of a number, `None` exactly from 12 on.
    pub fn of_number(number: u8) -> Option<Authority>
        ensures found { IfSome result (λ a. number_of a ≡ number) }
        ensures none { IfNone result (12 ≤ number) }
    {
        match number {
            0 => Some(Authority::Receive),
            1 => Some(Authority::SyncSend),
            2 => Some(Authority::AsyncSend),
            3 => Some(Authority::Reset),
            4 => Some(Authority::Grant),
            5 => Some(Authority::Read),
            6 => Some(Authority::Write),
            7 => Some(Authority::Control),
            8 => Some(Authority::Call),
            9 => Some(Authority::Reply),
            10 => Some(Authority::GrantBack),
            11 => Some(Authority::Handle),
            _ => None,
        }
    }

    /// The word that texts name the authority by.
    pub fn text(self) -> &'static str
        ensures { result.now ≡ text_of self }
    {
        match self {
            Authority::Receive => "Receive",
            Authority::SyncSend => "SyncSend",
            Authority::AsyncSend => "AsyncSend",
            Authority::Reset => "Reset",
            Authority::Grant => "Grant",
            Authority::Read => "Read",
            Authority::Write => "Write",
            Authority::Control => "Control",
            Authority::Call => "Call",
            Authority::Reply => "Reply",
            Authority::GrantBack => "GrantBack",
            Authority::Handle => "Handle",
        }
    }

    /// The authority of a word, `None` exactly where no authority has that text.
    pub fn find(word: &[u8]) -> Option<Authority>
        ensures { result ≡ authority_of word.now }
    {
        AUTHORITIES
            .iter()
            .copied()
            .find(|authority| authority.text().as_bytes() == word)
    }
}
