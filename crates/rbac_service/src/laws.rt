//! What a submit's definitions say, as a law about them alone.
ghost use Rattle.std.specs.Prelude.{◌≡◌, ◌≢◌, false};
ghost use Rattle.rbac_terms.specs.Vocabulary.{Vocabulary};
ghost use Rattle.rbac_words.specs.Group.{Group};
ghost use Rattle.rbac_words.specs.Keeping.Member.{IsNumber};
ghost use Rattle.rbac_words.specs.declared.stamp.Stamp.{Stamp};
ghost use Rattle.rbac_node.specs.Pass.{PassState};
ghost use Rattle.rbac_node.specs.declared.refusal.ServiceRefusal.{ServiceRefusal};
ghost use Rattle.rbac_node.specs.declared.refusal.ServiceRefusal.TheVariants.{Stopped, Busy, Foreign};
ghost use Rattle.rbac_service.specs.Submit.{IsSubmitted, IsNotSubmitted};

/// What a submit tells of its pass, whatever node it found: a command is submitted for a pass that waited for nothing and is of a
/// member of the group. Each refusal but Stopped and Busy comes to one that waited for nothing, and of these each but Foreign, so
/// a full clock, a full sent list and want of memory, to one that is of a member of the group.
pub fn a_submit_tells_of_its_pass()
    ensures submitted { (group : Group) (vocabulary : Vocabulary) (p : PassState) (s : Stamp) → IsSubmitted group vocabulary p s → (p.is_waiting ≡ false) × IsNumber group p.member }
    ensures idle { (group : Group) (vocabulary : Vocabulary) (p : PassState) (refusal : ServiceRefusal) → IsNotSubmitted group vocabulary p refusal → refusal ≢ Stopped → refusal ≢ Busy → p.is_waiting ≡ false }
    ensures member { (group : Group) (vocabulary : Vocabulary) (p : PassState) (refusal : ServiceRefusal) → IsNotSubmitted group vocabulary p refusal → refusal ≢ Stopped → refusal ≢ Busy → refusal ≢ Foreign → IsNumber group p.member }
{}
