ghost use Rattle.std.specs.Prelude.{◌≡◌, [], map, ◌<◌, length, slice_index_or, None, MatchOption, MatchResult};
ghost use Rattle.hs_texts.specs.declared.refusal.Refusal.TheVariants.{Twice};
ghost use Rattle.hs_texts.specs.declared.ast.AstVar.{AstVar as WrittenVar};
ghost use Rattle.hs_base.specs.Walks.{join_after};
ghost use Rattle.hs_texts.specs.MissionMeaning.{var_names, value_names as value_names_spec};
ghost use Rattle.hs_texts.specs.MissionRefusals.{var_again};
ghost use Rattle.domain_check.specs.Checking.{IsRefused};
ghost use Rattle.domain_check.specs.Numbering.{kind_of as kind_of_spec, var_named};
ghost use Rattle.domain_check.specs.Tables.{names_in, IsNamed};

use crate::names::Names;
use crate::twice::{add_new, value_names};
use hs_base::{Kind, List, Name, SvId, ValId};
use hs_texts::{AstKind, AstVar, Refusal};
use std::alloc::Global;

/// The names of the variables of a written mission, and for each those of its values.
#[derive(Drop)]
pub struct Tables<'a> {
    written: &'a [AstVar],
    vars: Names<'a>,
    values: List<Names<'a>>,
    ghost var_names: { names_in vars ≡ var_names written.now },
    ghost value_names: { map names_in values ≡ map value_names_spec written.now },
}

impl<'a> Tables<'a> {
    /// The tables of these variables. Refuses a name that stands twice.
    pub fn new(alloc: Global, written: &'a [AstVar]) -> Result<Tables<'a>, Refusal>
        ensures { MatchResult result
            (λ tables. (join_after var_again [] written.now ≡ []) × (tables.written.now ≡ written.now))
            (IsRefused Twice (join_after var_again [] written.now)) }
    {
        let mut vars = Names::new(alloc);
        let mut values = List::new(alloc);
        for var in written {
            add_new(alloc, &mut vars, &var.name)?;
            values.push(value_names(alloc, var.values.as_slice())?)?;
        }
        Ok(Tables {
            written,
            vars,
            values,
        })
    }

    /// The variables.
    pub fn written(&self) -> &'a [AstVar]
        ensures { result.now ≡ self.now.written.now }
    {
        self.written
    }

    /// The names of the values of the variable at a place.
    pub fn values_at(&self, place: usize) -> &Names<'a>
        requires { place < length self.now.written.now }
        ensures { (var : WrittenVar) → names_in result.now ≡ value_names_spec (slice_index_or self.now.written.now place var) }
    {
        &self.values[place]
    }

    /// The names of the values of the first variable of that name.
    pub fn values_of(&self, name: &Name) -> Option<&Names<'a>>
        ensures { MatchOption result (var_named self.now.written.now name.now ≡ None)
            (λ names. IsNamed self.now.written.now name.now (names_in names.now)) }
    {
        let place = self.vars.number(name) as usize;
        if place < self.written.len() {
            return Some(self.values_at(place));
        }
        None
    }

    /// The numbers of a variable and a value of it.
    pub fn kind(&self, kind: &AstKind) -> Kind
        ensures { result ≡ kind_of_spec self.now.written.now kind.now }
    {
        let value = match self.values_of(&kind.sv) {
            Some(names) => names.number(&kind.value.name),
            None => 0,
        };
        Kind {
            sv: SvId(self.vars.number(&kind.sv)),
            value: ValId(value),
        }
    }
}
