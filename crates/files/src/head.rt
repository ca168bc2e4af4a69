//! The first line of a survey file.
ghost use Rattle.std.specs.Prelude.{[], ◌∷◌};
ghost use Rattle.files.specs.Rows.{head_form, grade_letter, hand_letter};
ghost use Rattle.files.specs.Taking.{Takes};

use crate::fault::{FieldFault, LineCause};
use crate::line::{Row, take_columns, take_end};

/// The kind of grade that a file's marks have.
#[derive(Clone, Copy, PartialEq, Eq, Debug)]
pub(crate) enum GradeKind {
    YesNo,
    StageSets,
}

/// The side from which a model's lanes are counted.
#[derive(Clone, Copy, PartialEq, Eq, Debug)]
pub(crate) enum Hand {
    AsListed,
    Mirrored,
}

/// How many nodes, tags, blocks and terms a file has, and how its grades and its hand are.
#[derive(Clone, Copy, PartialEq, Eq, Debug)]
pub(crate) struct Head {
    pub(crate) nodes: u32,
    pub(crate) tags: u32,
    pub(crate) blocks: u32,
    pub(crate) terms: u32,
    pub(crate) grades: GradeKind,
    pub(crate) hand: Hand,
}

impl Row for Head {
    ghost form = { head_form };

    fn take(text: &[u8]) -> Result<(Self, &[u8]), LineCause> {
        let ([nodes, tags, blocks, terms], rest) = take_columns(text, b'H', [5, 5, 5, 5])?;
        let (grades, rest) = take_grades(rest)?;
        let (hand, rest) = take_hand(rest)?;
        let rest = take_end(rest)?;
        let head = Head {
            nodes: nodes as u32,
            tags: tags as u32,
            blocks: blocks as u32,
            terms: terms as u32,
            grades,
            hand,
        };
        Ok((head, rest))
    }
}

/// Takes the letter of a kind of grade.
fn take_grades(text: &[u8]) -> Result<(GradeKind, &[u8]), LineCause>
    ensures { Takes (λ g. grade_letter g ∷ []) (λ _. Unit {0}) text.now result }
{
    match text {
        [b'Y', rest @ ..] => Ok((GradeKind::YesNo, rest)),
        [b'G', rest @ ..] => Ok((GradeKind::StageSets, rest)),
        _ => Err(FieldFault::NoLetter.into()),
    }
}

/// Takes the letter of a hand.
fn take_hand(text: &[u8]) -> Result<(Hand, &[u8]), LineCause>
    ensures { Takes (λ h. hand_letter h ∷ []) (λ _. Unit {0}) text.now result }
{
    match text {
        [b'R', rest @ ..] => Ok((Hand::AsListed, rest)),
        [b'L', rest @ ..] => Ok((Hand::Mirrored, rest)),
        _ => Err(FieldFault::NoLetter.into()),
    }
}
