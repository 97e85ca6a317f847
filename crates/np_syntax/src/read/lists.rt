//! Typed lists.

ghost use Rattle.std.specs.Prelude.{◌≡◌, IfOk};
ghost use Rattle.np_lex.specs.Lexers.{items_left};
ghost use Rattle.np_read.specs.ItemAnswers.{Gives};
ghost use Rattle.np_read.specs.ItemReaders.{both};
ghost use Rattle.np_words.specs.TailedRows.{tail_or_none};
ghost use Rattle.np_words.specs.Text.{minus};
ghost use Rattle.np_words.specs.ReadingForm as words;
ghost use Rattle.np_syntax.specs.DomainForm as form;
ghost use Rattle.np_words.specs.declared.word.Group.{Group};
ghost use Rattle.np_words.specs.declared.word.Word.{Word};

use np_lex::Lexer;
use np_read::{ReadFault, take_operator};
use np_words::read::{name, variable};
use np_words::{Group, ListKind, Word};
use sqlite_items::Items;
use std::alloc::{AllocError, Global};

/// The groups that ended, and the words after them.
#[derive(Debug, Drop)]
struct Part {
    groups: Items<Group>,
    words: Items<Word>,
}

/// Reads a word of a list.
fn list_word(alloc: Global, lexer: &mut Lexer<'_>, list_kind: ListKind) -> Result<Word, ReadFault>
    ensures { Gives (λ w. w) (items_left lexer.new) result (form.list_word list_kind (items_left lexer.old)) }
{
    match list_kind {
        ListKind::Names => name(alloc, lexer),
        ListKind::Variables => variable(alloc, lexer),
    }
}

/// Reads `- name`, where `-` comes next.
fn of_type(alloc: Global, lexer: &mut Lexer<'_>) -> Result<Option<Word>, ReadFault>
    ensures { Gives (λ of. of) (items_left lexer.new) result (tail_or_none minus words.name (items_left lexer.old)) }
{
    if !take_operator(lexer, b"-") {
        return Ok(None);
    }
    let of = name(alloc, lexer)?;
    Ok(Some(of))
}

/// Reads a word, and its type where `-` comes next.
fn entry(
    alloc: Global,
    lexer: &mut Lexer<'_>,
    list_kind: ListKind,
) -> Result<(Word, Option<Word>), ReadFault>
    ensures { Gives (λ x. x) (items_left lexer.new) result (both (form.list_word list_kind) (tail_or_none minus words.name) (items_left lexer.old)) }
{
    let word = list_word(alloc, lexer, list_kind)?;
    let of = of_type(alloc, lexer)?;
    Ok((word, of))
}

/// Adds a word, with its group's type where it ends one.
fn with_word(alloc: Global, part: Part, word: Word, of: Option<Word>) -> Result<Part, AllocError>
    ensures { IfOk result (λ p. p ≡ form.with_word part word of) }
{
    let Part {
        mut groups,
        mut words,
    } = part;
    words.push(word)?;
    if of.is_none() {
        return Ok(Part { groups, words });
    }
    groups.push(Group { words, of })?;
    Ok(Part {
        groups,
        words: Items::new(alloc),
    })
}

/// The groups, where words are left one more without a type.
fn all_groups(part: Part) -> Result<Items<Group>, AllocError>
    ensures { IfOk result (λ groups. groups ≡ form.all_groups part.groups part.words) }
{
    let Part { mut groups, words } = part;
    if !words.is_empty() {
        groups.push(Group { words, of: None })?;
    }
    Ok(groups)
}

/// Reads a typed list, up to its closing bracket.
pub fn typed_list(
    alloc: Global,
    lexer: &mut Lexer<'_>,
    list_kind: ListKind,
) -> Result<Items<Group>, ReadFault>
    ensures { Gives (λ groups. groups) (items_left lexer.new) result (form.typed_list list_kind (items_left lexer.old)) }
{
    let mut part = Part {
        groups: Items::new(alloc),
        words: Items::new(alloc),
    };
    'list: while !lexer.take_right() {
        let (word, of) = entry(alloc, lexer, list_kind)?;
        part = with_word(alloc, part, word, of)?;
    }
    let groups = all_groups(part)?;
    Ok(groups)
}
