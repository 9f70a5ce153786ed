//! Which kind of line its first word makes it.

ghost use Rattle.std.specs.Prelude.{◌≡◌};
ghost use Rattle.arc_script.specs.Keywords.{keyword_of, is_later, comes, stands, is_heading_word, is_open};

/// An operation on two variables.
#[derive(Clone, Copy, Debug, PartialEq, Eq)]
pub enum PairWord {
    Copy,
    Move,
    Unown,
    Weak,
    Load,
}

/// The beginning of a block.
#[derive(Clone, Copy, Debug, PartialEq, Eq)]
pub enum BlockWord {
    IfNil,
    IfSome,
}

/// The word that a line begins with.
#[derive(Clone, Copy, Debug, PartialEq, Eq)]
pub enum Keyword {
    Arc,
    Slots,
    Entries,
    Caps,
    Class,
    Immortal,
    Global,
    Thread,
    Var,
    New,
    Drop,
    Pair(PairWord),
    Get,
    Set,
    Block(BlockWord),
    End,
    Phase,
    Schedule,
    Done,
}

/// The line that was read last, as far as it decides which lines may come next.
#[derive(Clone, Copy, Debug, PartialEq, Eq)]
pub enum Place {
    /// Nothing was read.
    Start,
    Version,
    Slots,
    Entries,
    Caps,
    /// A class, immortal or not.
    Class,
    Global,
    /// A thread or a variable.
    Thread,
    /// An operation, the beginning or the end of a block, or the end of a phase.
    Operation,
    Schedule,
    /// `done` was read.
    Ended,
}

/// What a line that begins with this word is: nothing where no line begins so.
pub fn keyword_of(word: &[u8]) -> Option<Keyword>
    ensures { result ≡ keyword_of word.now }
{
    match word {
        b"arc" => Some(Keyword::Arc),
        b"slots" => Some(Keyword::Slots),
        b"entries" => Some(Keyword::Entries),
        b"caps" => Some(Keyword::Caps),
        b"class" => Some(Keyword::Class),
        b"immortal" => Some(Keyword::Immortal),
        b"global" => Some(Keyword::Global),
        b"thread" => Some(Keyword::Thread),
        b"var" => Some(Keyword::Var),
        b"new" => Some(Keyword::New),
        b"drop" => Some(Keyword::Drop),
        b"copy" => Some(Keyword::Pair(PairWord::Copy)),
        b"move" => Some(Keyword::Pair(PairWord::Move)),
        b"unown" => Some(Keyword::Pair(PairWord::Unown)),
        b"weak" => Some(Keyword::Pair(PairWord::Weak)),
        b"load" => Some(Keyword::Pair(PairWord::Load)),
        b"get" => Some(Keyword::Get),
        b"set" => Some(Keyword::Set),
        b"ifnil" => Some(Keyword::Block(BlockWord::IfNil)),
        b"ifsome" => Some(Keyword::Block(BlockWord::IfSome)),
        b"end" => Some(Keyword::End),
        b"phase" => Some(Keyword::Phase),
        b"schedule" => Some(Keyword::Schedule),
        b"done" => Some(Keyword::Done),
        _ => None,
    }
}

/// Whether a thread is open, to which variables or operations may be added.
pub fn is_open(place: Place) -> bool
    ensures { result ≡ is_open place }
{
    matches!(place, Place::Thread | Place::Operation)
}

/// Whether lines that begin so are of version 2 alone.
fn is_later(keyword: Keyword) -> bool
    ensures { result ≡ is_later keyword }
{
    matches!(
        keyword,
        Keyword::Immortal | Keyword::Block(_) | Keyword::End
    )
}

/// Whether a line that begins so may come behind that line in a script of this version.
pub fn stands(version: u32, place: Place, keyword: Keyword) -> bool
    ensures { result ≡ stands version place keyword }
{
    if is_later(keyword) && version != 2 {
        return false;
    }
    comes(place, keyword)
}

fn comes(place: Place, keyword: Keyword) -> bool
    ensures { result ≡ comes place keyword }
{
    match keyword {
        Keyword::Arc => matches!(place, Place::Start),
        Keyword::Slots => matches!(place, Place::Version),
        Keyword::Entries => matches!(place, Place::Slots),
        Keyword::Caps => matches!(place, Place::Entries),
        Keyword::Class | Keyword::Immortal => matches!(
            place,
            Place::Entries | Place::Caps | Place::Class
        ),
        Keyword::Global => matches!(
            place,
            Place::Entries | Place::Caps | Place::Class | Place::Global
        ),
        Keyword::Thread => matches!(
            place,
            Place::Entries
                | Place::Caps
                | Place::Class
                | Place::Global
                | Place::Thread
                | Place::Operation
        ),
        Keyword::Var => matches!(place, Place::Thread),
        Keyword::New
        | Keyword::Drop
        | Keyword::Pair(_)
        | Keyword::Get
        | Keyword::Set
        | Keyword::Block(_)
        | Keyword::Phase => is_open(place),
        Keyword::End => !matches!(place, Place::Start),
        Keyword::Schedule | Keyword::Done => !matches!(
            place,
            Place::Start | Place::Version | Place::Slots | Place::Ended
        ),
    }
}

/// Whether a heading has lines that begin so.
pub fn is_heading_word(keyword: Keyword) -> bool
    ensures { result ≡ is_heading_word keyword }
{
    matches!(
        keyword,
        Keyword::Slots
            | Keyword::Entries
            | Keyword::Caps
            | Keyword::Class
            | Keyword::Immortal
            | Keyword::Global
    )
}
