//! The names of what the obligations of a job speak of.

ghost use Rattle.std.specs.Prelude.{◌≡◌, All, IsTrue, length, map};
ghost use Rattle.std.specs.Arc.{arc_value};
ghost use Rattle.pe_graph.specs.Places.{is_live_name, is_live, step_has_place, point_has_place, leaf_has_place, pair_has_place, shadow_has_place, IsShownIn};

use crate::job::Job;
use crate::literal::Lit;
use pe_base::{Name, Step};
use sqlite_items::Items;
use std::alloc::Global;
use std::sync::Arc;

/// Where an obligation compares: an output, a pair of registers, a pair of shadows, each by its number, or nowhere, since
/// it says that a step can be taken.
#[derive(Clone, Copy, Debug, PartialEq, Eq)]
pub enum Point {
    Output(u32),
    Register(u32),
    Shadow(u32),
    Live,
}

/// The two values of a point in the last cycle, as literals that say that a value is 1 and that it is 0.
#[derive(Clone, Copy, Debug, PartialEq, Eq)]
pub struct Shown {
    pub rtl_one: Lit,
    pub rtl_zero: Lit,
    pub net_one: Lit,
    pub net_zero: Lit,
}

/// The names of a check, by the numbers that steps, points and leaves use: the rows of the power states, roots of
/// supplies, input and output bits, and the registers of both sides.
#[derive(Drop)]
pub struct Names {
    pub rows: Items<Name>,
    pub roots: Items<Name>,
    pub inputs: Items<Name>,
    pub outputs: Items<Name>,
    pub rtl: Items<Name>,
    pub net: Items<Name>,
    /// Pairs of registers by their numbers, the RTL's first, and whether the netlist's has the complement.
    pub registers: Items<(u32, u32, bool)>,
    /// Pairs of shadows by the numbers of their registers, the RTL's first.
    pub shadows: Items<(u32, u32)>,
}

/// A job, for each goal its step, its point and the values that it shows, and the names of all these.
#[derive(Drop)]
pub struct Named {
    pub job: Arc<Job, Global>,
    pub names: Items<(Step, Point)>,
    pub shown: Items<Shown>,
    pub texts: Names,
    pub ghost name_each: { length names ≡ length (arc_value job).goals },
    pub ghost shown_each: { length shown ≡ length (arc_value job).goals },
    pub ghost live_at_live: { map is_live_name names ≡ map is_live (arc_value job).goals },
    pub ghost shown_in: { All (IsShownIn (arc_value job).graph) shown },
    pub ghost steps_there: { All (λ n. IsTrue (step_has_place texts n.0)) names },
    pub ghost points_there: { All (λ n. IsTrue (point_has_place texts n.1)) names },
    pub ghost leaves_there: { All (λ l. IsTrue (leaf_has_place texts l)) (arc_value job).leaves },
    pub ghost pairs_there: { All (λ p. IsTrue (pair_has_place texts p)) texts.registers },
    pub ghost shadows_there: { All (λ p. IsTrue (shadow_has_place texts p)) texts.shadows },
}

impl Named {
    /// The names of a job. Each fact is one of those that they always have.
    pub fn with(
        job: Arc<Job, Global>,
        names: Items<(Step, Point)>,
        shown: Items<Shown>,
        texts: Names,
    ) -> Named
        requires name_each { length names ≡ length (arc_value job).goals }
        requires shown_each { length shown ≡ length (arc_value job).goals }
        requires live_at_live { map is_live_name names ≡ map is_live (arc_value job).goals }
        requires shown_in { All (IsShownIn (arc_value job).graph) shown }
        requires steps_there { All (λ n. IsTrue (step_has_place texts n.0)) names }
        requires points_there { All (λ n. IsTrue (point_has_place texts n.1)) names }
        requires leaves_there { All (λ l. IsTrue (leaf_has_place texts l)) (arc_value job).leaves }
        requires pairs_there { All (λ p. IsTrue (pair_has_place texts p)) texts.registers }
        requires shadows_there { All (λ p. IsTrue (shadow_has_place texts p)) texts.shadows }
        ensures job { result.job ≡ job }
        ensures names { result.names ≡ names }
        ensures shown { result.shown ≡ shown }
        ensures texts { result.texts ≡ texts }
    {
        Named {
            job,
            names,
            shown,
            texts,
        }
    }
}
