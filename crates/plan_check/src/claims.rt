ghost use Rattle.std.specs.Prelude.{◌≡◌, not, List, [], ◌∷◌, ◌++◌, IfOk, OnOk};
ghost use Rattle.hs_base.specs.declared.plan.Support.{Support};
ghost use Rattle.hs_base.specs.Checked.{supports_of};
ghost use Rattle.plan_check.specs.Claimed.{is_claimed, AreClaims};

use hs_base::{Extension, Memory, Support, TokenRef};
use std::alloc::Global;
use std::collections::HashSet;

/// A need of a token: its variable, its place and the need's number.
#[derive(Clone, Copy, Debug, PartialEq, Eq, Hash)]
pub(crate) struct Claim {
    pub sv: u32,
    pub place: u32,
    pub need: u32,
}

fn claim_of(token: TokenRef, need: u32) -> Claim
    ensures { result ≡ record { sv = token.sv.0; place = token.place; need = need } }
{
    Claim {
        sv: token.sv.0,
        place: token.place,
        need,
    }
}

/// The needs of tokens that supports are for.
#[derive(Drop)]
pub(crate) struct Claims {
    pub set: HashSet<Claim>,
}

impl Claims {
    /// Adds what a support is for, and answers whether it is new. After want of memory nothing
    /// has changed.
    pub(crate) fn insert(&mut self, support: &Support) -> Result<bool, Memory>
        ensures added { IfOk result (λ fresh. fresh ≡ not (is_claimed self.old.set support.now.token support.now.need)) }
        ensures claims { (before : List Support) → AreClaims before self.old.set → OnOk result (AreClaims (before ++ support.now ∷ []) self.new.set) }
    {
        match self.set.insert(claim_of(support.token, support.need)) {
            Ok(fresh) => Ok(fresh),
            Err(_) => Err(Memory),
        }
    }

    /// Whether a support is for the need of the token.
    pub(crate) fn has(&self, token: TokenRef, need: u32) -> bool
        ensures { result ≡ is_claimed self.now.set token need }
    {
        let claim = claim_of(token, need);
        self.set.contains(&claim)
    }

    /// Adds what supports are for.
    fn insert_all(&mut self, supports: &[Support]) -> Result<(), Memory>
        ensures { (before : List Support) → AreClaims before self.old.set → OnOk result (AreClaims (before ++ supports.now) self.new.set) }
    {
        for support in supports {
            self.insert(support)?;
        }
        Ok(())
    }

    /// What the supports of a plan are for.
    pub(crate) fn of_plan(alloc: Global, extensions: &[Extension]) -> Result<Claims, Memory>
        ensures { IfOk result (λ c. AreClaims (supports_of extensions.now) c.set) }
    {
        let mut claims = Claims {
            set: HashSet::new(alloc),
        };
        for extension in extensions {
            claims.insert_all(extension.supports.as_slice())?;
        }
        Ok(claims)
    }
}
