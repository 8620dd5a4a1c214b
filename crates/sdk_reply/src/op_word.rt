// The kinds of operations by name.
ghost use Rattle.std.specs.Prelude.{◌≡◌, IfOk};
ghost use Rattle.json_text.specs.Nodes.{IsNodeOf, kind_of, value_at};
ghost use Rattle.json_text.specs.Text.{text_of};
ghost use Rattle.json_text.specs.declared.kind.Kind.TheVariants as kind;
ghost use Rattle.sdk_reply.specs.Operations.{word_in, word_of};

use crate::members::inside;
use json_text::{Kind, Node, Tree};
use lists::Memory;

/// The kind of an operation, by the text of its member `op`.
#[derive(Clone, Copy)]
pub(crate) enum OpWord {
    Ran,
    Failed,
    Planned,
    Sleeps,
    Waits,
    Invokes,
    Unknown,
}

/// The kind that a value names.
pub(crate) fn word_in(tree: &Tree<'_>, node: Node) -> Result<OpWord, Memory>
    requires { IsNodeOf tree.now node }
    ensures { IfOk result (λ word. word ≡ word_in (value_at tree.now node)) }
{
    if tree.kind(node) == Kind::Text {
        word_at(tree, node)
    } else {
        Ok(OpWord::Unknown)
    }
}

// No word has an escape, so that one which is written as it stands is found at once.
fn word_at(tree: &Tree<'_>, node: Node) -> Result<OpWord, Memory>
    requires node { IsNodeOf tree.now node }
    requires text { kind_of (value_at tree.now node) ≡ kind.Text }
    ensures { IfOk result (λ word. word ≡ word_of (text_of (value_at tree.now node))) }
{
    match word_of(inside(tree.slice(node))) {
        OpWord::Unknown => escaped_word(tree, node),
        word => Ok(word),
    }
}

/// The same of a text that may have escapes.
#[inline(never)]
fn escaped_word(tree: &Tree<'_>, node: Node) -> Result<OpWord, Memory>
    requires node { IsNodeOf tree.now node }
    requires text { kind_of (value_at tree.now node) ≡ kind.Text }
    ensures { IfOk result (λ word. word ≡ word_of (text_of (value_at tree.now node))) }
{
    match tree.plain_text(node) {
        Some(text) => Ok(word_of(text)),
        None => Ok(word_of(tree.text_of(node)?.as_slice())),
    }
}

fn word_of(text: &[u8]) -> OpWord
    ensures { result ≡ word_of text.now }
{
    if text == b"StepRun".as_slice() {
        OpWord::Ran
    } else if text == b"StepError".as_slice() {
        OpWord::Failed
    } else if text == b"StepPlanned".as_slice() {
        OpWord::Planned
    } else if text == b"Sleep".as_slice() {
        OpWord::Sleeps
    } else if text == b"WaitForEvent".as_slice() {
        OpWord::Waits
    } else if text == b"InvokeFunction".as_slice() {
        OpWord::Invokes
    } else {
        OpWord::Unknown
    }
}
