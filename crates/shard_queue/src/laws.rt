//! What the definitions of groups and of numbers say in other words: each law is the contract of a
//! function that has nothing to do.

ghost use Rattle.std.specs.Prelude.{◌≡◌, ◌+◌, ◌<◌, ◌≤◌, ◌==◌, ◌++◌, ◌∷◌, ◌↔◌, ℕ, ℤ, Some, List, []};
ghost use Rattle.std.specs.Prelude.{All, IsSomeAnd, IsPermutation, map, min, length, count_by};
ghost use Rattle.std.specs.Prelude.{flat_map, slice_get, set};
ghost use Rattle.shard_queue.specs.Vocabulary.{Firing, Hand, Low, get_elem?, some};
ghost use Rattle.shard_queue.specs.Vocabulary.{thread_of};
ghost use Rattle.shard_queue.specs.Drawing.{Draws};
ghost use Rattle.shard_queue.specs.Hands.{hand};
ghost use Rattle.shard_queue.specs.Least.{IsLeastLowered, low};
ghost use Rattle.shard_queue.specs.Groupings.{Grouping, of_group, indices_of};
ghost use Rattle.shard_queue.specs.Numbers.{IsAllBelow, SameItems, below};

/// Lists of numbers have the same items exactly if one is the other in some order.
pub fn same_items_are_permutations()
    ensures { (xs ys : List ℕ) → SameItems xs ys ↔ IsPermutation xs ys }
{}

/// A list that has the numbers below `n`, each once, has no others.
pub fn each_number_once()
    ensures length { (n : ℕ) (xs : List ℕ) → IsAllBelow n xs → length xs ≡ n }
    ensures once { (n : ℕ) (xs : List ℕ) → IsAllBelow n xs → (x : ℕ) → x < n
        → count_by (λ y. y == x) xs ≡ 1 }
    ensures others { (n : ℕ) (xs : List ℕ) → IsAllBelow n xs → (x : ℕ) → n ≤ x
        → count_by (λ y. y == x) xs ≡ 0 }
{}

/// If each thread has a group, the indices of all groups together are those of the whole run,
/// each once.
pub fn each_index_in_one_group()
    ensures { (grouping : Grouping) (threads : List ℤ)
        → All (λ t. IsSomeAnd (grouping.group t) (λ g. g < grouping.count)) threads
        → IsAllBelow (length threads)
        (flat_map (λ g. indices_of grouping g threads) (below grouping.count)) }
{}

/// The firings at a group's indices are those of its threads, in their order.
pub fn firings_at_the_indices()
    ensures { (grouping : Grouping) (g : ℕ) (firings : List Firing)
        → map (slice_get firings) (indices_of grouping g (map thread_of firings))
        ≡ map Some (of_group grouping g firings) }
{}

/// A board's rule doesn't hold after a store in place of its steps. If a seat claims by a look
/// and then a store, and another one claimed in between, the number that was found is handed out
/// twice. If a seat stores a number in place of lowering to it, a lesser one is lost.
pub fn stores_are_not_kept()
    ensures claimed { (n seats word found by : ℕ) (views : List Hand) (v : Hand)
        → Draws n seats word views → get_elem? views by ≡ some v → found < min n word
        → ¬ (Draws n seats (found + 1)
        (set views by (hand v.end v.seats v.at_end (v.drawn ++ found ∷ [])))) }
    ensures lowered { (word number by : ℕ) (views : List Low) (v : Low)
        → IsLeastLowered word views → get_elem? views by ≡ some v → word < number
        → ¬ (IsLeastLowered number (set views by (low (min v.lowered number) v.seen))) }
{}
