//! The words by which lines without parentheses begin.

ghost use Rattle.std.specs.Prelude.{◌≡◌};
ghost use Rattle.hr_forms.specs.Headings as spec;

/// The first word of a line without parentheses.
#[derive(Clone, Copy, Debug, PartialEq, Eq)]
pub enum Heading {
    Version,
    Liars,
    Replicas,
    Retries,
    Index,
    Lie,
    Lose,
    Suspect,
    Session,
    Schedule,
}

/// What a first word is.
#[tactic(auto, unfolding(crate::specs::Headings::heading_of))]
pub fn heading_of(word: &[u8]) -> Option<Heading>
    ensures { result ≡ spec.heading_of word.now }
{
    match head_of(word) {
        Some(heading) => Some(heading),
        None => part_of(word),
    }
}

fn head_of(word: &[u8]) -> Option<Heading>
    ensures { result ≡ spec.head_of word.now }
{
    if word == b"hrdb".as_slice() {
        return Some(Heading::Version);
    }
    if word == b"f".as_slice() {
        return Some(Heading::Liars);
    }
    if word == b"replicas".as_slice() {
        return Some(Heading::Replicas);
    }
    if word == b"retries".as_slice() {
        return Some(Heading::Retries);
    }
    None
}

fn part_of(word: &[u8]) -> Option<Heading>
    ensures { result ≡ spec.part_of word.now }
{
    if word == b"index".as_slice() {
        return Some(Heading::Index);
    }
    if word == b"lie".as_slice() {
        return Some(Heading::Lie);
    }
    if word == b"lose".as_slice() {
        return Some(Heading::Lose);
    }
    if word == b"suspect".as_slice() {
        return Some(Heading::Suspect);
    }
    if word == b"session".as_slice() {
        return Some(Heading::Session);
    }
    if word == b"schedule".as_slice() {
        return Some(Heading::Schedule);
    }
    None
}
