//! What the words of a command line ask for.

mod arguments;
mod found;
mod found_joined;
mod run_words;
mod subcommands;
mod unit_words;

use crate::piece::Pieces;
pub use found::parse_words;
use sms_encode::Draft;
use sms_show::Shown;
use sms_split::LongText;
use sms_told::Form;

/// What a line has that is joined.
#[derive(Clone, Copy, Debug, PartialEq, Eq)]
pub enum Carried {
    /// An SMS-DELIVER.
    Unit,
    /// The address of a service centre, and an SMS-DELIVER.
    Centre,
    /// A record of a card.
    Record,
    /// User data alone, septets packed.
    Data,
    /// User data alone, septets one an octet.
    Septets,
}

/// Where what a joiner holds is kept.
#[derive(Clone, Copy)]
pub struct StateFile<'a> {
    /// The path of the file.
    pub path: &'a str,
    /// After how many lines it is written each time.
    pub every: u64,
}

/// How units are joined.
#[derive(Clone, Copy)]
pub struct Joined<'a> {
    /// How lines have their pieces; none where the options say two ways, or one of them wants
    /// another.
    pub pieces: Option<Pieces>,
    /// Whether each line begins with its recipient.
    pub has_recipients: bool,
    /// How many sets of segments may be open.
    pub open: usize,
    /// How many that are whole are remembered.
    pub remembered: usize,
    /// For how many seconds they are, where that has an end.
    pub remember_for: Option<u64>,
    /// What becomes of texts in one piece.
    pub alone: sms_join::Alone,
    /// How the texts are written.
    pub form: Form,
    /// Whether repeats and refusals are told.
    pub is_verbose: bool,
    /// Where what the joiner holds is kept, if it is.
    pub state: Option<StateFile<'a>>,
}

/// How a script is played.
#[derive(Clone, Copy)]
pub struct Played {
    /// How it is told.
    pub form: Form,
    /// Whether events that name nothing count as faults.
    pub is_checked: bool,
    /// Whether it is told at the end if the run was orderly.
    pub tells_order: bool,
    /// Whether it is told at the end if `accepted` meant accepted.
    pub tells_accepted: bool,
}

/// One command with its words.
#[derive(Clone, Copy)]
pub enum Request<'a> {
    Show(Shown<'a>),
    Encode(Draft<'a>),
    Split(LongText<'a>),
    /// Units are joined.
    Join(Joined<'a>),
    /// A script is played.
    Play(Played),
    /// A script is played and drawn.
    Chart,
}

impl Request<'_> {
    /// Whether faults of digits and of addresses name their place.
    pub fn is_explained(&self) -> bool {
        match self {
            Request::Show(shown) => shown.is_explained,
            Request::Encode(draft) => draft.is_explained,
            _ => false,
        }
    }
}
