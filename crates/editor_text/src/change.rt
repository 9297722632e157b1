//! Changes of a text.

ghost use Rattle.std.specs.Prelude.{◌≡◌, ◌≤◌, IfOk, IfSome, IsTrue, length};
ghost use Rattle.editor_text.specs.Changes.{AreApart, applied, changes_of, replaced_within};

use std::alloc::{AllocError, Global};

/// A change of a text: its bytes from one place up to another become others.
#[derive(Drop)]
pub struct Replacement {
    /// Bytes before the first that is replaced.
    pub from: usize,
    /// Bytes up to the last that is replaced; the same as `from` where only something is added.
    pub to: usize,
    /// What stands in their place.
    pub text: Vec<u8>,
}

/// The text with its bytes from one place up to another replaced. A place after the end is the end, and `to` is `from` if it is before it.
pub fn replace(
    alloc: Global,
    text: &[u8],
    from: usize,
    to: usize,
    new: &[u8],
) -> Result<Vec<u8>, AllocError>
    ensures { IfOk result (λ whole. whole.items ≡ replaced_within text.now from to new.now) }
{
    let from = from.min(text.len());
    let to = to.min(text.len()).max(from);
    let mut whole = Vec::from_slice(alloc, &text[..from])?;
    whole.extend_from_slice(new)?;
    whole.extend_from_slice(&text[to..])?;
    Ok(whole)
}

/// The text after changes that refer to it, made from the first to the last; `None` if they aren't in order, apart and within the text.
fn apply(alloc: Global, old: &[u8], changes: &[Replacement]) -> Result<Option<Vec<u8>>, AllocError>
    ensures applied { IfOk result (λ found.
        IfSome found (λ new. new.items ≡ applied (changes_of changes.now) old.now)) }
    ensures apart { IfOk result (λ found.
        IfSome found (λ _. AreApart old.now (changes_of changes.now))) }
{
    let mut new = Vec::new(alloc);
    let mut at = 0;
    for change in changes {
        if change.from < at || change.to < change.from || change.to > old.len() {
            return Ok(None);
        }
        new.extend_from_slice(&old[at..change.from])?;
        new.extend_from_slice(change.text.as_slice())?;
        at = change.to;
    }
    new.extend_from_slice(&old[at..])?;
    Ok(Some(new))
}

/// Whether these changes make one text the other.
fn lead_to(
    alloc: Global,
    old: &[u8],
    changes: &[Replacement],
    new: &[u8],
) -> Result<bool, AllocError>
    ensures applied { IfOk result (λ lead.
        IsTrue lead → applied (changes_of changes.now) old.now ≡ new.now) }
    ensures apart { IfOk result (λ lead. IsTrue lead → AreApart old.now (changes_of changes.now)) }
{
    match apply(alloc, old, changes)? {
        Some(text) => Ok(text.as_slice() == new),
        None => Ok(false),
    }
}

/// One change, of all that a text has.
fn whole_change(alloc: Global, old: &[u8], new: &[u8]) -> Result<Vec<Replacement>, AllocError>
    ensures applied { IfOk result (λ list. applied (changes_of list.items) old.now ≡ new.now) }
    ensures apart { IfOk result (λ list. AreApart old.now (changes_of list.items)) }
{
    let mut changes = Vec::new(alloc);
    changes.push(Replacement {
        from: 0,
        to: old.len(),
        text: Vec::from_slice(alloc, new)?,
    })?;
    Ok(changes)
}

/// Whether a byte is a blank or ends a line.
fn is_blank(byte: u8) -> bool {
    matches!(byte, b' ' | b'\t' | b'\n' | b'\r')
}

/// How many blanks stand in front.
fn blank_count(text: &[u8]) -> usize
    ensures { result ≤ length text.now }
{
    text.iter().take_while(|byte| is_blank(**byte)).count()
}

/// Whether two bytes are the same, and no blanks.
fn is_common(byte: u8, other: u8) -> bool {
    byte == other && !is_blank(byte)
}

/// How many bytes in front are the same in both texts, and no blanks.
fn common_length(old: &[u8], new: &[u8]) -> usize
    ensures old { result ≤ length old.now }
    ensures new { result ≤ length new.now }
{
    let count = old
        .iter()
        .zip(new.iter())
        .take_while(|pair| is_common(*pair.0, *pair.1))
        .count();
    count.min(old.len()).min(new.len())
}

/// The changes of blanks that make one text the other, if all other bytes are the same; else some of them.
fn changes_of_blanks(
    alloc: Global,
    old: &[u8],
    new: &[u8],
) -> Result<Vec<Replacement>, AllocError> {
    let mut changes = Vec::new(alloc);
    let mut old_rest = old;
    let mut new_rest = new;
    for _ in 0..=old.len() {
        let from = old.len().saturating_sub(old_rest.len());
        let (old_blanks, old_next) = old_rest.split_at(blank_count(old_rest));
        let (new_blanks, new_next) = new_rest.split_at(blank_count(new_rest));
        if old_blanks != new_blanks {
            changes.push(Replacement {
                from,
                to: from.saturating_add(old_blanks.len()),
                text: Vec::from_slice(alloc, new_blanks)?,
            })?;
        }
        let common = common_length(old_next, new_next);
        if common == 0 {
            break;
        }
        old_rest = old_next.split_at(common).1;
        new_rest = new_next.split_at(common).1;
    }
    Ok(changes)
}

/// The changes that make one text another, in the order of the first, apart from each other: of blanks and line ends alone where all other
/// bytes are the same, else one of all.
pub fn replacements_between(
    alloc: Global,
    old: &[u8],
    new: &[u8],
) -> Result<Vec<Replacement>, AllocError>
    ensures applied { IfOk result (λ list. applied (changes_of list.items) old.now ≡ new.now) }
    ensures apart { IfOk result (λ list. AreApart old.now (changes_of list.items)) }
{
    let changes = changes_of_blanks(alloc, old, new)?;
    if lead_to(alloc, old, changes.as_slice(), new)? {
        Ok(changes)
    } else {
        whole_change(alloc, old, new)
    }
}
