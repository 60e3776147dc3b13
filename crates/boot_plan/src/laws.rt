//! Laws of the definitions. These functions do nothing: what they ensure is the law.

ghost use Rattle.boot_plan.specs.Placed.{Placed};
ghost use Rattle.boot_plan.specs.Rooms.{HasRoom, LacksRoom};
ghost use Rattle.boot_plan.specs.declared.need.Need.{Need};
ghost use Rattle.boot_plan.specs.declared.untyped.Untyped.{Untyped};
ghost use Rattle.std.specs.Prelude.{ℕ, List, Option};

/// Where there is a placement, there is room; so where room lacks, no placement is.
pub fn placements_have_room()
    ensures room { (ns : List Need) (rs : List Untyped) (places : List (Option ℕ)) → Placed ns rs places → HasRoom ns rs }
    ensures none { (ns : List Need) (rs : List Untyped) (places : List (Option ℕ)) (bits need have : ℕ)
        → LacksRoom ns rs bits need have → Placed ns rs places → ⊥ }
{}
