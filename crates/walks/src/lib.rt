//! The walk of the exact simplex method as a definition: the values of rows with their
//! infinitesimal parts, the exchanges of fixed constraints, the stages with their pivots, and where
//! a walk ends. With it the laws that its code rests on.
//!
//! A walk starts at the dictionary whose nonbasic forms are the columns. First each constraint that
//! is an equation or chosen as tight is exchanged with a form that may change. Then each other
//! constraint has a stage that raises its form until it is not below 0, and a last stage lowers the
//! cost. A pivot takes the first form, in the order of forms, that helps (Bland 1977), and lets
//! leave what reaches 0 first. Each inequality is loosened by a positive infinitesimal of its own,
//! far larger than that of every later one, so that no two reach 0 at once and no stage comes back
//! to a dictionary (the lexicographic method of Dantzig, Orden and Wolfe 1955).
#![tactic(auto)]

pub mod laws;
