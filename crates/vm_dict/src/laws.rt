// What dictionaries and deques stand for.

ghost use Rattle.std.specs.Prelude.{◌≡◌, ℤ, pos, Some, ◌∷◌, List};
ghost use Rattle.cap_words.specs.Words.{W};
ghost use Rattle.instr_table.specs.declared.op.Op.{Op};
ghost use Rattle.instr_table.specs.Lists.{item};
ghost use Rattle.vm_dict.specs.Calls.{added_in, set_in, deleted_in, new_in, pushed_in, put_in, popped_in, pulled_in};
ghost use Rattle.vm_dict.specs.Costs.{Costs, quads_of};
ghost use Rattle.vm_dict.specs.Dictionaries.{GetsLookedUp, AddsInFront, SetsAssigned, DeletesLeftOut, DictionariesStand, looked_up, assigned, left_out};
ghost use Rattle.vm_dict.specs.Deques.{CountsItsValues, BeginsEmpty, PushesInFront, PutsBehind, PopsTheFirst, PullsTheLast, DequesStand};

/// Each call takes the quads that its operation costs, less one for each item that the operation puts on the stack.
pub fn calls_take_their_cost()
    ensures test_dict { (n : ℤ) → Costs (Op.DictTest n) (λ m vs. 1) }
    ensures add { Costs (Op.DictPut (pos 2)) (λ m vs. quads_of (added_in m (item vs 3) (item vs 2) (item vs 1)) 1) }
    ensures set { Costs (Op.DictPut (pos 3)) (λ m vs. quads_of (set_in m (item vs 3) (item vs 2) (item vs 1)) 1) }
    ensures delete { Costs Op.DictDel (λ m vs. quads_of (deleted_in m (item vs 2) (item vs 1)) 1) }
    ensures new { Costs Op.DequeNew (λ m vs. quads_of (new_in m) 1) }
    ensures test_deque { (n : ℤ) → Costs (Op.DequeTest n) (λ m vs. 1) }
    ensures push { Costs (Op.DequePut (pos 2)) (λ m vs. quads_of (pushed_in m (item vs 2) (item vs 1)) 1) }
    ensures put { Costs (Op.DequePut (pos 4)) (λ m vs. quads_of (put_in m (item vs 2) (item vs 1)) 1) }
    ensures pop { Costs (Op.DequeTake (pos 3)) (λ m vs. quads_of (popped_in m (item vs 1)) 2) }
    ensures pull { Costs (Op.DequeTake (pos 5)) (λ m vs. quads_of (pulled_in m (item vs 1)) 2) }
{}

/// A dictionary of at most 4,095 entries stands for the list of its keys and values: each call does the list's operation, and no
/// dictionary changes when cells are taken.
pub fn dictionaries_are_lists()
    ensures get { GetsLookedUp }
    ensures add { AddsInFront }
    ensures set { SetsAssigned }
    ensures delete { DeletesLeftOut }
    ensures stand { DictionariesStand }
{}

/// After a key was set its value is the new one, and setting or deleting a key leaves what is under every other key.
pub fn keys_stand_apart()
    ensures set { (key value : W) → (es : List (W × W)) → looked_up key (assigned key value es) ≡ Some value }
    ensures other_set { (key value other : W) → (es : List (W × W)) → (key ≡ other → ⊥) → looked_up other (assigned key value es) ≡ looked_up other es }
    ensures other_deleted { (key other : W) → (es : List (W × W)) → (key ≡ other → ⊥) → looked_up other (left_out key es) ≡ looked_up other es }
{}

/// A deque whose two lists have at most 4,095 pairs each stands for its front list and then its back list reversed: each call does the
/// list's operation, and no deque changes when cells are taken.
pub fn deques_are_lists()
    ensures len { CountsItsValues }
    ensures new { BeginsEmpty }
    ensures push { PushesInFront }
    ensures put { PutsBehind }
    ensures pop { PopsTheFirst }
    ensures pull { PullsTheLast }
    ensures stand { DequesStand }
{}
