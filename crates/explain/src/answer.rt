//! What there is to say of a triple.

ghost use Rattle.arch_policy.specs.Tables.{tables_of};
ghost use Rattle.cspace_layout.specs.Within.{IsWithin};
ghost use Rattle.explain.specs.Answers.{IsAnswer, answer_text, explanation, is_assigned};
ghost use Rattle.explain.specs.declared.answer.Answer.TheVariants.{Assigned as Told};
ghost use Rattle.std.specs.Prelude.{◌≡◌, ◌+◌, ◌<◌, ◌^◌, length, IfOk};

use crate::{ExplainError, Reason, explain, reason_text, together};
use adl_ast::Source;
use adl_meaning::{Flat, Settled};
use cam_base::{Made, NoMemory, Text};
use cap_model::Authority;
use std::alloc::Global;

/// The words of a triple: a label's text, an authority's word, a label's text.
#[derive(Clone, Copy)]
pub struct Question<'a> {
    pub from: &'a [u8],
    pub authority: &'a [u8],
    pub to: &'a [u8],
}

/// What there is to say of a triple.
#[derive(Drop)]
pub enum Answer {
    /// The authority is assigned: the triple and its first reason, as lines.
    Assigned(Text),
    /// It isn't assigned, as where a word is no label's or no authority's.
    NotAssigned,
}

impl Answer {
    /// Whether the authority is assigned.
    pub fn is_assigned(&self) -> bool
        ensures { result ≡ is_assigned self.now }
    {
        matches!(self, Answer::Assigned(_))
    }

    /// What there is to say, as lines.
    pub fn text(&self) -> &[u8]
        ensures { result.now ≡ answer_text self.now }
    {
        match self {
            Answer::Assigned(text) => text.as_bytes(),
            Answer::NotAssigned => b"not assigned\n",
        }
    }
}

fn assigned(
    alloc: Global,
    source: &Source,
    flat: &Flat,
    question: &Question<'_>,
    reason: Reason,
) -> Made<Answer>
    ensures { IfOk result (λ answer. answer ≡ Told (explanation source.now flat.now question.now.from.now
        question.now.authority.now question.now.to.now reason)) }
{
    let reason = reason_text(alloc, source, flat, reason)?;
    let text = together(
        alloc,
        &[
            question.from,
            b" ",
            question.authority,
            b" ",
            question.to,
            b"\n",
            reason.as_bytes(),
        ],
    )?;
    Ok(Answer::Assigned(text))
}

/// Whether the authority is assigned, and why.
pub fn answer_of(
    alloc: Global,
    source: &Source,
    flat: &Flat,
    settled: &Settled,
    question: &Question<'_>,
) -> Made<Answer>
    requires within { IsWithin source.now flat.now }
    requires few { length flat.now.domains + length flat.now.connections + length flat.now.leaves < 2 ^ 32 }
    ensures { IfOk result (IsAnswer (tables_of source.now flat.now settled.now) question.now.from.now
        question.now.authority.now question.now.to.now) }
{
    let Some(authority) = Authority::find(question.authority) else {
        return Ok(Answer::NotAssigned);
    };
    let (from, to) = (question.from, question.to);
    match explain(alloc, source, flat, settled, from, authority, to) {
        Ok(reason) => assigned(alloc, source, flat, question, reason),
        Err(ExplainError::NotAssigned) => Ok(Answer::NotAssigned),
        Err(ExplainError::NoMemory) => Err(NoMemory),
    }
}
