//! Where a desk part has an ending.
ghost use Rattle.std.specs.Prelude.{◌↔◌, List};
ghost use Rattle.lpcc_case.specs.Instance.{Instance};
ghost use Rattle.play.specs.declared.event.Event.{Event as Happening};
ghost use Rattle.play.specs.declared.event.Options.{Options as Bounds};
ghost use Rattle.play.specs.declared.ending.Ending.{Ending as End};
ghost use Rattle.play.specs.Parts.{Part};
ghost use Rattle.play.specs.Records.{Carries};
ghost use Rattle.play.specs.Endings.{IsEnding};
ghost use Rattle.desk_part.specs.DeskParts.{IsOver};

/// What a draw tells as done is that there is an ending: a part that a record leads to is over
/// exactly where one of the four endings is its own.
pub fn a_part_is_over_where_it_has_an_ending()
    ensures { (a : Instance) (o : Bounds) (events : List Happening) (d : Part) →
        Carries a o events d → IsOver a o d ↔ ((end : End) × IsEnding a o d end) }
{}
