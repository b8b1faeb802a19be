//! The order of views, and of stamps.
ghost use Rattle.numbers.specs.Order.{OrdersStamps, TotalOrder};

use crate::views::Stamp;

/// Views are totally ordered: no view is earlier than itself, earlier is transitive, and of two
/// views that are not one, one is earlier. And `is_same` is equality.
pub fn views_are_ordered()
    ensures { TotalOrder }
{}

/// As keys, stamps are ordered by their views and, in one view, by their places; two are equal where both are.
pub fn stamps_are_ordered()
    ensures { OrdersStamps ⟦<Stamp as Ord>⟧.cmp }
{}
