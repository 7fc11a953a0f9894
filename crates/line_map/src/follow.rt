ghost use Rattle.std.specs.Prelude.{◌≡◌, IfOk, IsOkUnless};
ghost use Rattle.base_values.specs.declared.EditError.TheVariants.{NoMemory};
ghost use Rattle.line_edits.specs.Edit.{IsValid};
ghost use Rattle.line_edits.specs.declared.EditKind.{EditKind};

use crate::follower::{Follower, regained};
use base_axis::Axis;
use base_values::{EditError, Exact};
use line_edits::LineEdit;
use line_routes::edit_route;
use std::alloc::Global;

/// What line edits along an axis carry along, by itself: it stands on the edited sheet, or names
/// its own sheet. Each call asks that the edit is valid and that the value is inside the sheet,
/// and `NoMemory` is its only error. docs/MODEL.md has the rules.
pub trait Follow<A: Axis>: Exact + Drop {
    /// What an edit's opposite does not give back.
    type Kept: Drop;

    /// It is inside the sheet.
    ghost Inside: { EditKind → Self → Type 0 };

    /// It is what was kept of a value that is carried along.
    ghost Restores: { EditKind → Self → Self.Kept → Type 0 };

    ghost follow_of: { EditKind → Self → Self };

    ghost kept_of: { EditKind → Self → Self.Kept };

    ghost regain_of: { EditKind → Self → Self.Kept → Self };

    /// The value carried along.
    fn follow(&self, alloc: Global, edit: &LineEdit<A>) -> Result<Self, EditError>
        requires valid { IsValid A.along.last edit.now.kind }
        requires lies { Inside edit.now.kind self.now }
        ensures value { IfOk result (λ value. value ≡ follow_of edit.now.kind self.now) }
        ensures only { IsOkUnless result NoMemory };

    /// What has to be kept of the value, so that it can be regained.
    fn kept(&self, alloc: Global, edit: &LineEdit<A>) -> Result<Self::Kept, EditError>
        requires valid { IsValid A.along.last edit.now.kind }
        requires lies { Inside edit.now.kind self.now }
        ensures kept { IfOk result (λ kept. kept ≡ kept_of edit.now.kind self.now) }
        ensures only { IsOkUnless result NoMemory };

    /// The value before the edit, from the one that was carried along.
    fn regain(
        &self,
        alloc: Global,
        edit: &LineEdit<A>,
        kept: &Self::Kept,
    ) -> Result<Self, EditError>
        requires valid { IsValid A.along.last edit.now.kind }
        requires restores { Restores edit.now.kind self.now kept.now }
        ensures value { IfOk result (λ value. value ≡ regain_of edit.now.kind self.now kept.now) }
        ensures only { IsOkUnless result NoMemory };

    /// What is kept of a value can be laid over the value carried along.
    ghost fits: { (e : EditKind) → IsValid A.along.last e → (v : Self) → Inside e v → Restores e (follow_of e v) (kept_of e v) };

    /// The law of followers: what is regained is the value that was carried along.
    ghost regains: { (e : EditKind) → IsValid A.along.last e → (v : Self) → Inside e v → regain_of e (follow_of e v) (kept_of e v) ≡ v };
}

impl<A: Axis, F: Follower<A> + Exact> Follow<A> for F {
    ghost use Rattle.base_maps.specs.Carried.{settled};
    ghost use Rattle.line_map.specs.Alone.{Restores};
    ghost use Rattle.line_routes.specs.EditRoute.{edit_route};
    ghost use Rattle.line_routes.specs.RouteModel.{back};
    ghost use Rattle.line_map.specs.laws.AloneLaws.{kept_restores, kept_fits};
    ghost use Rattle.line_routes.specs.laws.RouteLaws.{edit_is_route};

    type Kept = Option<F::Part>;

    ghost Inside = { λ e. F.Inside (edit_route A.along e) };

    ghost Restores = { λ e. Restores F.Inside F.Fits (edit_route A.along e) };

    ghost follow_of = { λ e. F.carry_of (edit_route A.along e) };

    ghost kept_of = { λ e. F.part_of (edit_route A.along e) };

    ghost regain_of = { λ e v kept. settled (F.carry_of (back (edit_route A.along e))) (F.restore_of (edit_route A.along e)) kept v };

    fn follow(&self, alloc: Global, edit: &LineEdit<A>) -> Result<F, EditError> {
        let opposite = edit.opposite();
        self.carry(alloc, &edit_route(edit, &opposite))
    }

    fn kept(&self, alloc: Global, edit: &LineEdit<A>) -> Result<Option<F::Part>, EditError> {
        let opposite = edit.opposite();
        self.part(alloc, &edit_route(edit, &opposite))
    }

    fn regain(
        &self,
        alloc: Global,
        edit: &LineEdit<A>,
        kept: &Option<F::Part>,
    ) -> Result<F, EditError> {
        let opposite = edit.opposite();
        regained(alloc, &edit_route(edit, &opposite), self, kept.as_ref())
    }

    ghost fits = { λ e valid v lies. kept_fits F.Inside F.carry_of F.part_of (edit_route A.along e) (edit_is_route A.along A.lawful e valid) F.Fits F.stays F.part_fits v lies };

    ghost regains = { λ e valid v lies. kept_restores F.Inside F.carry_of F.part_of (edit_route A.along e) (edit_is_route A.along A.lawful e valid) F.restore_of F.comes_back F.restores v lies };
}

/// The law of followers: a value that is carried along and regained is the value.
pub fn there_and_back<A: Axis, F: Follow<A>>(
    alloc: Global,
    value: &F,
    edit: &LineEdit<A>,
) -> Result<F, EditError>
    requires valid { IsValid A.along.last edit.now.kind }
    requires lies { F.Inside edit.now.kind value.now }
    ensures value { IfOk result (λ back. back ≡ value.now) }
    ensures only { IsOkUnless result NoMemory }
{
    let there = value.follow(alloc, edit)?;
    let kept = value.kept(alloc, edit)?;
    let back = there.regain(alloc, edit, &kept)?;
    Ok(back)
}
