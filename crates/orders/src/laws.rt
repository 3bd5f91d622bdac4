//! Laws of the definitions that the contracts cite. Each is a function that does nothing, and its
//! contract is the law.

ghost use Rattle.std.specs.Prelude.{◌≡◌, ◌⊎◌, ℕ, ◌<◌, ◌≤◌, List, length, All};
ghost use Rattle.orders.specs.Order.{HasMoves, IsOrderRefusal, max_moves};
ghost use Rattle.orders.specs.declared.OrderFault.{OrderFault};

/// States that an order file has either one list of moves or one error.
pub fn one_answer_of_order()
    ensures some { (text : List ℕ) (workers : ℕ)
        → ((moves : List ℕ) × HasMoves text workers moves)
        ⊎ ((fault : OrderFault) × IsOrderRefusal text workers fault) }
    ensures not_both { (text : List ℕ) (workers : ℕ) (moves : List ℕ) (fault : OrderFault)
        → HasMoves text workers moves → ¬ IsOrderRefusal text workers fault }
    ensures one_list { (text : List ℕ) (workers : ℕ) (m n : List ℕ)
        → HasMoves text workers m → HasMoves text workers n → m ≡ n }
    ensures one_fault { (text : List ℕ) (workers : ℕ) (f g : OrderFault)
        → IsOrderRefusal text workers f → IsOrderRefusal text workers g → f ≡ g }
{}

/// States that the moves of an order name workers and are within the limit.
pub fn accepted_in_range()
    ensures workers { (text : List ℕ) (workers : ℕ) (moves : List ℕ)
        → HasMoves text workers moves → All (λ worker. worker < workers) moves }
    ensures moves { (text : List ℕ) (workers : ℕ) (moves : List ℕ)
        → HasMoves text workers moves → length moves ≤ max_moves }
{}
