// The laws of acceptance.
ghost use Rattle.std.specs.Prelude.{◌≡◌, []};
ghost use Rattle.hs_texts.specs.declared.ast.Ast.{Ast};
ghost use Rattle.hs_base.specs.declared.mission.Mission.{Mission};
ghost use Rattle.hs_texts.specs.MissionMeaning.{Means};
ghost use Rattle.hs_texts.specs.MissionRefusals.{refusals};
ghost use Rattle.text_laws.specs.Writable.{IsWritable};

/// A written mission has no refusal exactly where some mission is meant.
pub fn a_mission_is_meant_where_no_rule_is_broken()
    ensures meant { (a : Ast) → IsWritable a → refusals a ≡ [] → (m : Mission) × Means a m }
    ensures refused { (a : Ast) (m : Mission) → Means a m → refusals a ≡ [] }
{}
