//! What comes at the moments of a script.
ghost use Rattle.std.specs.Prelude.{◌≡◌, ◌<◌, ◌∷◌, [], ◌++◌, true, All, Contains, IfNone, IfOk, IfSome, IsSome, OnOk, length, reverse};
ghost use Rattle.std.specs.List.Sorted.{IsPermutation};
ghost use Rattle.hx_config.specs.Meaning.{Meaning};
ghost use Rattle.hx_script_parts.specs.Limits.{is_client_of};
ghost use Rattle.hx_run.specs.Cares.{DueOrder, LastIsOther, StandInOrder};
ghost use Rattle.hx_run.specs.Dues.{AreDue, ComeInOrder, IsThere};

use hx_base::{Items, Millis, NoMemory, Order};
use hx_script_parts::ClientLine;

/// The clients and the orders that are to come: each list by moment and then in script order, the next one at its end.
#[derive(Drop)]
pub(crate) struct Due {
    pub clients: Vec<ClientLine>,
    pub orders: Vec<(Millis, Order)>,
}

/// The clients of a script as they come.
pub(crate) fn clients_due(clients: Items<ClientLine>) -> Result<Vec<ClientLine>, NoMemory>
    ensures same { IfOk result (λ due. IsPermutation clients due.items) }
    ensures count { IfOk result (λ due. length due.items ≡ length clients) }
    ensures in_order { IfOk result (λ due. ComeInOrder clients (reverse due.items)) }
{
    let mut due = clients.into_vec();
    due.sort_by_key(|line| line.moment.0)?;
    due.reverse();
    Ok(due)
}

/// The orders of a script as they come.
pub(crate) fn orders_due(orders: Items<(Millis, Order)>) -> Result<Vec<(Millis, Order)>, NoMemory>
    ensures same { IfOk result (λ due. IsPermutation orders due.items) }
    ensures in_order { IfOk result (λ due. StandInOrder orders (reverse due.items)) }
{
    let mut due = orders.into_vec();
    due.sort_by_key(|order| order.0.0)?;
    due.reverse();
    Ok(due)
}

/// The moment is among these, which rise.
fn is_among(moments: &[Millis], at: Millis) -> bool
    ensures { result ≡ true → Contains moments.now at }
{
    match moments.binary_search_by_key(&at.0, |moment| moment.0) {
        Ok(place) => moments[place].0 == at.0,
        Err(_) => false,
    }
}

/// Each order has its moment. In a script that is always so, since its moments have that of each of its orders.
///
/// # Errors
/// `NoMemory` where one has none.
pub(crate) fn all_have_moments(
    orders: &[(Millis, Order)],
    moments: &[Millis],
) -> Result<(), NoMemory>
    ensures { OnOk result (All (λ (x : DueOrder). Contains moments.now x.0) orders.now) }
{
    for order in orders {
        if !is_among(moments, order.0) {
            return Err(NoMemory);
        }
    }
    Ok(())
}

impl Due {
    /// The next order of this moment.
    pub(crate) fn order(&mut self, now: Millis) -> Option<Order>
        ensures due { (c : Meaning) → AreDue c self.old → AreDue c self.new }
        ensures order { (c : Meaning) → AreDue c self.old → IfSome result (IsThere c) }
        ensures fewer { IsSome result → length self.new.orders.items < length self.old.orders.items }
        ensures next { IfSome result (λ what. self.old.orders.items ≡ self.new.orders.items ++ (now, what) ∷ []) }
        ensures none { IfNone result (self.new.orders.items ≡ self.old.orders.items) }
        ensures other { IfNone result (LastIsOther now self.new.orders.items) }
        ensures clients { self.new.clients.items ≡ self.old.clients.items }
    {
        match self.orders.last() {
            Some((at, _)) if at.0 == now.0 => match self.orders.pop() {
                Some((_, order)) => Some(order),
                None => None,
            },
            _ => None,
        }
    }

    /// The next client of this moment.
    pub(crate) fn client(&mut self, now: Millis) -> Option<ClientLine>
        ensures due { (c : Meaning) → AreDue c self.old → AreDue c self.new }
        ensures client { (c : Meaning) → AreDue c self.old → IfSome result (λ line. is_client_of c line ≡ true) }
        ensures fewer { IsSome result → length self.new.clients.items < length self.old.clients.items }
        ensures next { IfSome result (λ line. self.old.clients.items ≡ self.new.clients.items ++ line ∷ []) }
        ensures none { IfNone result (self.new.clients.items ≡ self.old.clients.items) }
        ensures orders { self.new.orders.items ≡ self.old.orders.items }
    {
        match self.clients.last() {
            Some(line) if line.moment.0 == now.0 => self.clients.pop(),
            _ => None,
        }
    }
}
