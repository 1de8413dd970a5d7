//! The words by which the lines of a report begin.
ghost use Rattle.std.specs.Prelude.{◌≡◌};
ghost use Rattle.hr_report_reader.specs.Headings as spec;

/// The first word of a line that has no answer and is no row.
#[derive(Clone, Copy, Debug, PartialEq, Eq)]
pub enum Heading {
    Report,
    Commits,
    Commit,
    Session,
    Block,
    Convicted,
    Replica,
    Table,
    End,
}

/// What a first word is.
#[tactic(auto, unfolding(crate::specs::Headings::heading_of))]
pub fn heading_of(word: &[u8]) -> Option<Heading>
    ensures { result ≡ spec.heading_of word.now }
{
    match told_first(word) {
        Some(heading) => Some(heading),
        None => told_behind(word),
    }
}

fn told_first(word: &[u8]) -> Option<Heading>
    ensures { result ≡ spec.told_first word.now }
{
    if word == b"hrdb".as_slice() {
        return Some(Heading::Report);
    }
    if word == b"commits".as_slice() {
        return Some(Heading::Commits);
    }
    if word == b"commit".as_slice() {
        return Some(Heading::Commit);
    }
    if word == b"session".as_slice() {
        return Some(Heading::Session);
    }
    if word == b"block".as_slice() {
        return Some(Heading::Block);
    }
    None
}

fn told_behind(word: &[u8]) -> Option<Heading>
    ensures { result ≡ spec.told_behind word.now }
{
    if word == b"convicted".as_slice() {
        return Some(Heading::Convicted);
    }
    if word == b"replica".as_slice() {
        return Some(Heading::Replica);
    }
    if word == b"table".as_slice() {
        return Some(Heading::Table);
    }
    if word == b"end".as_slice() {
        return Some(Heading::End);
    }
    None
}
