//! Laws of the definitions. These functions do nothing: what they ensure is the law.

ghost use Rattle.cap_machine.specs.Sample.{sample};
ghost use Rattle.cap_model.specs.State.{irq_at, thread_at};
ghost use Rattle.cap_model.specs.declared.spec.Spec.{Spec};
ghost use Rattle.flow_model.specs.Act.{Act, send, store, load, signal, await, allowed, refused};
ghost use Rattle.flow_model.specs.ActRuns.{ActRun};
ghost use Rattle.flow_model.specs.Example.{
  binding,
  calling,
  dropping,
  filled,
  first_world,
  mapping,
  sample_acts,
  sample_seen,
  spacing,
  taking,
  Leaves,
};
ghost use Rattle.flow_model.specs.World.{content, denied, done, message, signals, World};
ghost use Rattle.std.specs.Prelude.{◌≡◌, ℕ, List, [], ◌∷◌, Some, None};

/// Acts lead from a world to one world at most.
pub fn acts_lead_to_one_world()
    ensures { (spec : Spec) (w new other : World) (acts : List Act) → ActRun spec w acts new → ActRun spec w acts other
        → new ≡ other }
{}

/// In a small system a thread comes to see a message, signals, a refusal and the contents of a frame.
pub fn acts_are_possible()
    ensures { (end : World) × ActRun sample first_world sample_acts end × (end.seen 3 ≡ sample_seen) }
{}

/// Each way of each authority is one by which something passes: in a small system what one has or sees at the end of some
/// acts is other than without them. What thread 3 sees of thread 2 passes along SyncSend and against Receive at endpoint
/// 5, what thread 2 sees of thread 3 along Receive and against SyncSend. Signals pass along AsyncSend to notification 6
/// and against Receive from it, and who awaits them takes them away, along Receive. Stores and bindings pass along Write
/// and Handle, loads against Read. What thread 2 controls it changes, and it sees what stands there.
pub fn each_way_passes()
    ensures sync_send { Leaves first_world (allowed (send 2 2 3 1 42) ∷ []) (λ w. w.seen 3) (message 7 42 ∷ []) }
    ensures receive { Leaves first_world (allowed (send 2 2 3 1 42) ∷ []) (λ w. w.seen 2) (done ∷ [])
        × Leaves first_world (calling ∷ refused (send 2 2 3 1 42) ∷ []) (λ w. w.seen 2) (denied ∷ []) }
    ensures async_send { Leaves first_world (allowed (signal 2 3 5) ∷ []) (λ w. w.pending 6) (5 ∷ []) }
    ensures empties { Leaves first_world (allowed (signal 2 3 5) ∷ allowed (await 3 2) ∷ []) (λ w. w.pending 6) [] }
    ensures awaits { Leaves first_world (allowed (signal 2 3 5) ∷ allowed (await 3 2) ∷ []) (λ w. w.seen 3)
        (signals (5 ∷ []) ∷ []) × Leaves first_world (allowed (await 3 2) ∷ []) (λ w. w.seen 3) (signals [] ∷ []) }
    ensures writes { (x : ℕ) → Leaves first_world (spacing ∷ mapping ∷ allowed (store 3 8 x) ∷ []) (λ w. w.contents 8) x }
    ensures reads { (x : ℕ) → Leaves (filled x) (spacing ∷ mapping ∷ allowed (load 3 8) ∷ []) (λ w. w.seen 3) (content x ∷ []) }
    ensures handles { Leaves first_world (binding ∷ []) (λ w. irq_at w.state 9) (Some 6) }
    ensures controls { Leaves first_world (spacing ∷ []) (λ w. (thread_at w.state 3).space) (Some 7) }
    ensures controlled { Leaves first_world (allowed taking ∷ []) (λ w. w.seen 2) (done ∷ [])
        × Leaves first_world (dropping ∷ refused taking ∷ []) (λ w. w.seen 2) (denied ∷ []) }
{}
