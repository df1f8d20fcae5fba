ghost use Rattle.std.specs.Prelude.{◌≡◌, ℕ, List, ◌∷◌, ◌++◌, ◌+◌, [], OnOk, IfOk, slice_get, count_by};
ghost use Rattle.std.specs.Str.{bytes_eq};
ghost use Rattle.hs_texts.specs.PlanGrammar.{has_point, may_be_fixed as may_be_fixed_spec};
ghost use Rattle.hs_texts.specs.declared.written.WrittenExtension.{WrittenExtension as WrittenExtensionSpec};
ghost use Rattle.hs_texts.specs.declared.written.WrittenPoint.TheVariants.{End, Horizon};
ghost use Rattle.plan_text.specs.SoFar.{Counts, variable_at as variable_at_spec, names_of_kinds};

use hs_base::{List, Memory, Mission, Name, Var};
use hs_texts::{WrittenBody, WrittenExtension, WrittenKind, WrittenPoint, WrittenToken};
use std::alloc::Global;
use std::marker::Model;

/// A written plan so far.
#[derive(Drop)]
pub struct WrittenPlan<'a> {
    mission: &'a Mission,
    extensions: List<WrittenExtension>,
    // How many tokens each variable of the mission has.
    counts: Vec<usize>,
}

impl<'a> Model for WrittenPlan<'a> {
    ghost use Rattle.hs_texts.specs.PlanGrammar.{token_names};
    ghost use Rattle.plan_text.specs.SoFar.{SoFar, Counts};

    ghost Value = { SoFar };

    ghost view = { λ plan. record { mission = plan.mission.now; extensions = plan.extensions } };

    ghost invariant = { λ plan. Counts plan.mission.now.vars (token_names plan.extensions) plan.counts.items };
}

/// Where the first variable of this name stands.
pub fn variable_at(vars: &[Var], name: &Name) -> Option<usize>
    ensures { result ≡ variable_at_spec vars.now name.now }
{
    vars.iter().position(|var| var.name == *name)
}

/// The count of a variable.
fn count_at(counts: &[usize], v: usize) -> Option<usize>
    ensures { result ≡ slice_get counts.now v }
{
    counts.get(v).copied()
}

/// How many of the tokens are of the variable of this name.
fn count_named(tokens: &[WrittenKind], name: &Name) -> usize
    ensures { result ≡ count_by (λ token. bytes_eq name.now token.sv) tokens.now }
{
    tokens.iter().filter(|token| *name == token.sv).count()
}

/// Counts a token of the variable of this name.
fn count_one(vars: &[Var], counts: &mut Vec<usize>, name: &Name) -> Result<(), Memory>
    ensures { (names : List (List ℕ)) → Counts vars.now names counts.old.items
        → OnOk result (Counts vars.now (names ++ name.now ∷ []) counts.new.items) }
{
    let Some(v) = variable_at(vars, name) else {
        return Ok(());
    };
    let Some(count) = count_at(counts, v) else {
        return Ok(());
    };
    let Some(more) = count.checked_add(1) else {
        return Err(Memory);
    };
    counts[v] = more;
    Ok(())
}

/// Counts these tokens.
fn count_all(vars: &[Var], counts: &mut Vec<usize>, tokens: &[WrittenKind]) -> Result<(), Memory>
    ensures { (names : List (List ℕ)) → Counts vars.now names counts.old.items
        → OnOk result (Counts vars.now (names ++ names_of_kinds tokens.now) counts.new.items) }
{
    for token in tokens {
        count_one(vars, counts, &token.sv)?;
    }
    Ok(())
}

impl<'a> WrittenPlan<'a> {
    /// The mission's plan without extensions.
    pub fn new(alloc: Global, mission: &'a Mission) -> Result<WrittenPlan<'a>, Memory>
        ensures { IfOk result (λ plan. plan ≡ record { mission = mission.now; extensions = [] }) }
    {
        Ok(WrittenPlan {
            mission,
            extensions: List::new(alloc),
            counts: vec![in alloc; 0; mission.vars.len()]?,
        })
    }

    /// The plan with an extension more.
    pub fn with(self, extension: WrittenExtension) -> Result<WrittenPlan<'a>, Memory>
        ensures { IfOk result (λ plan. plan ≡ record { mission = self.entry.mission; extensions = self.entry.extensions ++ extension ∷ [] }) }
    {
        let WrittenPlan {
            mission,
            mut extensions,
            mut counts,
        } = self;
        let tokens = extension.body.tokens.as_slice();
        count_all(mission.vars.as_slice(), &mut counts, tokens)?;
        extensions.push(extension)?;
        Ok(WrittenPlan {
            mission,
            extensions,
            counts,
        })
    }

    /// The extensions.
    pub fn into_extensions(self) -> List<WrittenExtension>
        ensures { result ≡ self.entry.extensions }
    {
        let WrittenPlan {
            mission: _,
            extensions,
            counts: _,
        } = self;
        extensions
    }

    /// Whether the plan has the horizon point of that number.
    fn has_horizon(&self, k: u32) -> bool
        ensures { result ≡ has_point self.now.mission self.now.extensions (Horizon k) }
    {
        1 <= k && k as usize <= self.extensions.len()
    }

    /// Whether the plan has the token; one of an unknown variable is let pass.
    fn has_token(&self, token: &WrittenToken) -> bool
        ensures { result ≡ has_point self.now.mission self.now.extensions (End token.now) }
    {
        let Some(v) = variable_at(self.mission.vars.as_slice(), &token.sv) else {
            return true;
        };
        match count_at(&self.counts, v) {
            Some(count) => (token.place as usize) < count,
            None => false,
        }
    }

    /// Whether the plan has the point; one of an unknown variable is let pass.
    pub fn has(&self, point: &WrittenPoint) -> bool
        ensures { result ≡ has_point self.now.mission self.now.extensions point.now }
    {
        match point {
            WrittenPoint::Origin => true,
            WrittenPoint::Horizon(k) => self.has_horizon(*k),
            WrittenPoint::End(token) => self.has_token(token),
        }
    }

    /// Whether the plan with these tokens in a further extension has the token.
    fn has_token_with(&self, tokens: &[WrittenKind], token: &WrittenToken) -> bool
        ensures { (e : WrittenExtensionSpec) → e.body.tokens ≡ tokens.now
            → result ≡ has_point self.now.mission (self.now.extensions ++ e ∷ []) (End token.now) }
    {
        let Some(v) = variable_at(self.mission.vars.as_slice(), &token.sv) else {
            return true;
        };
        match count_at(&self.counts, v) {
            Some(count) => {
                let place = token.place as usize;
                place < count || place - count < count_named(tokens, &token.sv)
            }
            None => false,
        }
    }

    /// Whether the plan has the point where an extension with this body is added to it; one of an
    /// unknown variable is let pass.
    pub fn has_with(&self, body: &WrittenBody, point: &WrittenPoint) -> bool
        ensures { (e : WrittenExtensionSpec) → e.body ≡ body.now
            → result ≡ has_point self.now.mission (self.now.extensions ++ e ∷ []) point.now }
    {
        match point {
            WrittenPoint::Origin => true,
            WrittenPoint::Horizon(k) => 1 <= *k && *k as usize - 1 <= self.extensions.len(),
            WrittenPoint::End(token) => self.has_token_with(body.tokens.as_slice(), token),
        }
    }

    /// Whether it is a point of one of the plan's extensions.
    pub fn may_be_fixed(&self, point: &WrittenPoint) -> bool
        ensures { result ≡ may_be_fixed_spec self.now.mission self.now.extensions point.now }
    {
        match point {
            WrittenPoint::Origin => false,
            WrittenPoint::Horizon(k) => self.has_horizon(*k),
            WrittenPoint::End(token) => self.has_token(token),
        }
    }
}
