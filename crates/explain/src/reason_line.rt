//! All lines of a reason.

ghost use Rattle.explain.specs.Lines.{end_line, lock_line, reason_text, rule_text};
ghost use Rattle.std.specs.Option.{option_map_or};
ghost use Rattle.std.specs.Prelude.{◌≡◌, [], IfOk};

use crate::lines::Teller;
use crate::{Reason, Rule, together};
use adl_ast::Source;
use adl_meaning::Flat;
use cam_base::{Made, Text};
use std::alloc::Global;

impl Teller<'_> {
    fn rule_text(self, alloc: Global, rule: Rule, end: (u32, u32)) -> Made<Text>
        ensures { IfOk result (λ text. text ≡ rule_text self.entry.flat.now rule end) }
    {
        match rule {
            Rule::Direct => self.rule_line(alloc, end),
            Rule::ByCall => Text::new(alloc, b"rule Call\n"),
            Rule::ByBind => Text::new(alloc, b"rule Bind\n"),
        }
    }

    fn second_line(self, alloc: Global, end: Option<(u32, u32)>) -> Made<Text>
        ensures { IfOk result (λ text. text ≡ option_map_or (end_line self.entry.source.now self.entry.flat.now) end []) }
    {
        match end {
            Some(end) => self.end_line(alloc, end),
            None => Ok(Text::empty(alloc)),
        }
    }

    fn last_line(self, alloc: Global, lock: Option<(u32, u32)>) -> Made<Text>
        ensures { IfOk result (λ text. text ≡ option_map_or (lock_line self.entry.source.now self.entry.flat.now) lock []) }
    {
        match lock {
            Some(lock) => self.lock_line(alloc, lock),
            None => Ok(Text::empty(alloc)),
        }
    }
}

/// The lines of a reason: its rule, its ends, its lock.
pub fn reason_text(alloc: Global, source: &Source, flat: &Flat, reason: Reason) -> Made<Text>
    ensures { IfOk result (λ text. text ≡ reason_text source.now flat.now reason) }
{
    let teller = Teller { source, flat };
    let rule = teller.rule_text(alloc, reason.rule, reason.first)?;
    let first = teller.end_line(alloc, reason.first)?;
    let second = teller.second_line(alloc, reason.second)?;
    let last = teller.last_line(alloc, reason.lock)?;
    together(
        alloc,
        &[
            rule.as_bytes(),
            first.as_bytes(),
            second.as_bytes(),
            last.as_bytes(),
        ],
    )
}
