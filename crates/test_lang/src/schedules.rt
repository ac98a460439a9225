//! Worked plays, computed from the definitions: which steps are enabled, what the loads give, and in which order the nodes take effect.
ghost use Rattle.std.specs.Prelude.{◌≡◌, ◌∷◌, [], true, false};
ghost use Rattle.test_lang.specs.declared.step.Step.TheVariants.{Execute, Drain, Perform};
ghost use Rattle.test_lang.specs.declared.target.Target.TheVariants.{Sc, Tso, Pso, Weak};
ghost use Rattle.test_lang.specs.declared.target.Fault.TheVariants.{None, Stale, NoFence, Unordered, NoForward, LoadLoad};
ghost use Rattle.test_lang.specs.Litmus.{store_buffering, store_buffering_fences, message_passing, message_passing_partial_fences, own_store, own_stores, own_stores_and_other, one_store_loads};
ghost use Rattle.test_lang.specs.Play.States.{opening};
ghost use Rattle.test_lang.specs.Play.Machines.{is_enabled};
ghost use Rattle.test_lang.specs.Play.Plays.{IsPlay, LeadsTo, final, is_done, steps_left};
ghost use Rattle.test_lang.specs.Play.Choices.{choices};

/// Store buffering on SC, the threads in turn: each load gives the store of the other thread.
pub fn threads_take_turns()
    ensures play { LeadsTo Sc None store_buffering (Execute 0 ∷ Execute 1 ∷ Execute 0 ∷ Execute 1 ∷ [])
        (2 ∷ 1 ∷ []) (0 ∷ 2 ∷ 1 ∷ 3 ∷ []) }
    // A thread whose operations are executed has no next one.
    ensures no_more { is_enabled Sc None store_buffering
        (final Sc None store_buffering (Execute 0 ∷ Execute 0 ∷ [])) (Execute 0) ≡ false }
    ensures no_thread { is_enabled Sc None store_buffering opening (Execute 2) ≡ false }
    ensures unfinished { is_done store_buffering
        (final Sc None store_buffering (Execute 0 ∷ Execute 1 ∷ [])) ≡ false }
{}

/// Store buffering on TSO, where both stores wait past both loads.
pub fn stores_wait_past_loads()
    ensures play { LeadsTo Tso None store_buffering
        (Execute 0 ∷ Execute 1 ∷ Execute 0 ∷ Execute 1 ∷ Drain 0 0 ∷ Drain 1 0 ∷ [])
        (0 ∷ 0 ∷ []) (1 ∷ 3 ∷ 0 ∷ 2 ∷ []) }
    // With the operations executed and the stores in their buffers the play isn't done.
    ensures unfinished { is_done store_buffering
        (final Tso None store_buffering (Execute 0 ∷ Execute 1 ∷ Execute 0 ∷ Execute 1 ∷ [])) ≡ false }
{}

/// Message passing: TSO drains the oldest store alone, and with the fault `Unordered` any of them.
pub fn buffers_are_drained_in_order()
    ensures waits { is_enabled Tso None message_passing
        (final Tso None message_passing (Execute 0 ∷ Execute 0 ∷ [])) (Drain 0 1) ≡ false }
    ensures unordered { LeadsTo Tso Unordered message_passing
        (Execute 0 ∷ Execute 0 ∷ Drain 0 1 ∷ Execute 1 ∷ Execute 1 ∷ Drain 0 0 ∷ [])
        (2 ∷ 0 ∷ []) (1 ∷ 2 ∷ 3 ∷ 0 ∷ []) }
    // A place behind the buffer's end has no entry.
    ensures no_entry { is_enabled Tso Unordered message_passing
        (final Tso Unordered message_passing (Execute 0 ∷ [])) (Drain 0 1) ≡ false }
{}

/// A load gives the store that waits in its own buffer, and with the fault `NoForward` what memory has.
pub fn loads_see_their_own_buffer()
    ensures forwarded { LeadsTo Tso None own_store (Execute 0 ∷ Execute 0 ∷ Drain 0 0 ∷ []) (1 ∷ []) (1 ∷ 0 ∷ []) }
    ensures tso { LeadsTo Tso NoForward own_store (Execute 0 ∷ Execute 0 ∷ Drain 0 0 ∷ []) (0 ∷ []) (1 ∷ 0 ∷ []) }
    ensures pso { LeadsTo Pso NoForward own_store (Execute 0 ∷ Execute 0 ∷ Drain 0 0 ∷ []) (0 ∷ []) (1 ∷ 0 ∷ []) }
{}

/// Of two buffered stores to its word a load gives the last.
pub fn last_buffered_store_is_given()
    ensures tso { LeadsTo Tso None own_stores (Execute 0 ∷ Execute 0 ∷ Execute 0 ∷ Drain 0 0 ∷ Drain 0 0 ∷ [])
        (2 ∷ []) (2 ∷ 0 ∷ 1 ∷ []) }
    ensures pso { LeadsTo Pso None own_stores (Execute 0 ∷ Execute 0 ∷ Execute 0 ∷ Drain 0 0 ∷ Drain 0 0 ∷ [])
        (2 ∷ []) (2 ∷ 0 ∷ 1 ∷ []) }
    // With the first of them in memory the second still waits.
    ensures half { LeadsTo Tso None own_stores (Execute 0 ∷ Execute 0 ∷ Drain 0 0 ∷ Execute 0 ∷ Drain 0 0 ∷ [])
        (2 ∷ []) (0 ∷ 2 ∷ 1 ∷ []) }
{}

/// With the fault `Stale` a load that reads memory gives the value before.
pub fn stale_loads_give_the_value_before()
    ensures first { LeadsTo Sc (Stale 3) store_buffering (Execute 0 ∷ Execute 0 ∷ Execute 1 ∷ Execute 1 ∷ [])
        (0 ∷ 0 ∷ []) (0 ∷ 1 ∷ 2 ∷ 3 ∷ []) }
    ensures second { LeadsTo Sc (Stale 2) own_stores (Execute 0 ∷ Execute 0 ∷ Execute 0 ∷ []) (1 ∷ []) (0 ∷ 1 ∷ 2 ∷ []) }
    // The fault doesn't touch a load that finds its word in its own buffer.
    ensures tso { LeadsTo Tso (Stale 2) own_stores (Execute 0 ∷ Execute 0 ∷ Execute 0 ∷ Drain 0 0 ∷ Drain 0 0 ∷ [])
        (2 ∷ []) (2 ∷ 0 ∷ 1 ∷ []) }
    ensures pso { LeadsTo Pso (Stale 2) own_stores (Execute 0 ∷ Execute 0 ∷ Drain 0 0 ∷ Drain 0 0 ∷ Execute 0 ∷ [])
        (1 ∷ []) (0 ∷ 1 ∷ 2 ∷ []) }
    ensures weak { LeadsTo Weak (Stale 2) own_stores (Perform 0 0 ∷ Perform 0 1 ∷ Perform 0 2 ∷ []) (1 ∷ []) (0 ∷ 1 ∷ 2 ∷ []) }
    ensures weak_own { LeadsTo Weak (Stale 1) own_store (Perform 0 1 ∷ Perform 0 0 ∷ []) (1 ∷ []) (1 ∷ 0 ∷ []) }
{}

/// A full fence waits for an empty buffer, but not with the fault `NoFence`.
pub fn full_fences_wait()
    ensures tso { is_enabled Tso None store_buffering_fences
        (final Tso None store_buffering_fences (Execute 0 ∷ [])) (Execute 0) ≡ false }
    ensures pso { is_enabled Pso None store_buffering_fences
        (final Pso None store_buffering_fences (Execute 0 ∷ [])) (Execute 0) ≡ false }
    ensures drained { is_enabled Tso None store_buffering_fences
        (final Tso None store_buffering_fences (Execute 0 ∷ Drain 0 0 ∷ [])) (Execute 0) ≡ true }
    ensures no_fence { LeadsTo Tso NoFence store_buffering_fences
        (Execute 0 ∷ Execute 0 ∷ Execute 0 ∷ Execute 1 ∷ Execute 1 ∷ Execute 1 ∷ Drain 0 0 ∷ Drain 1 0 ∷ [])
        (0 ∷ 0 ∷ []) (1 ∷ 2 ∷ 4 ∷ 5 ∷ 0 ∷ 3 ∷ []) }
    ensures weak { is_enabled Weak None store_buffering_fences opening (Perform 0 1) ≡ false }
    ensures weak_no_fence { LeadsTo Weak NoFence store_buffering_fences
        (Perform 0 2 ∷ Perform 1 2 ∷ Perform 0 1 ∷ Perform 1 1 ∷ Perform 0 0 ∷ Perform 1 0 ∷ [])
        (0 ∷ 0 ∷ []) (2 ∷ 5 ∷ 1 ∷ 4 ∷ 0 ∷ 3 ∷ []) }
{}

/// On the weak machine two loads of one word keep their order, but not with the fault `LoadLoad`.
pub fn loads_of_one_word_wait()
    ensures waits { is_enabled Weak None (one_store_loads 2) opening (Perform 1 1) ≡ false }
    ensures load_load { LeadsTo Weak LoadLoad (one_store_loads 2) (Perform 1 1 ∷ Perform 0 0 ∷ Perform 1 0 ∷ [])
        (1 ∷ 0 ∷ []) (2 ∷ 0 ∷ 1 ∷ []) }
    ensures once { is_enabled Weak LoadLoad (one_store_loads 2)
        (final Weak LoadLoad (one_store_loads 2) (Perform 1 1 ∷ [])) (Perform 1 1) ≡ false }
{}

/// Message passing on the weak machine, where the flag is stored and both are loaded before the data are stored.
pub fn weak_operations_pass_each_other()
    ensures play { LeadsTo Weak None message_passing (Perform 0 1 ∷ Perform 1 0 ∷ Perform 1 1 ∷ Perform 0 0 ∷ [])
        (2 ∷ 0 ∷ []) (1 ∷ 2 ∷ 3 ∷ 0 ∷ []) }
    ensures no_operation { is_enabled Weak None message_passing opening (Perform 0 2) ≡ false }
{}

/// A load on the weak machine gives its base while that waits, and with the fault `NoForward` what memory has.
pub fn weak_loads_give_their_base()
    ensures base { LeadsTo Weak None own_stores (Perform 0 2 ∷ Perform 0 0 ∷ Perform 0 1 ∷ []) (2 ∷ []) (2 ∷ 0 ∷ 1 ∷ []) }
    ensures second_waits { LeadsTo Weak None own_stores (Perform 0 0 ∷ Perform 0 2 ∷ Perform 0 1 ∷ []) (2 ∷ []) (0 ∷ 2 ∷ 1 ∷ []) }
    ensures no_forward { LeadsTo Weak NoForward own_stores (Perform 0 0 ∷ Perform 0 2 ∷ Perform 0 1 ∷ []) (1 ∷ []) (0 ∷ 2 ∷ 1 ∷ []) }
    ensures memory { LeadsTo Weak None own_stores_and_other (Perform 0 0 ∷ Perform 0 1 ∷ Perform 1 0 ∷ Perform 0 2 ∷ [])
        (3 ∷ []) (0 ∷ 1 ∷ 3 ∷ 2 ∷ []) }
{}

/// PSO drains a store past one to another word, and past none to its own word but with the fault `Unordered`.
pub fn pso_drains_other_words_first()
    ensures play { LeadsTo Pso None message_passing
        (Execute 0 ∷ Execute 0 ∷ Drain 0 1 ∷ Execute 1 ∷ Execute 1 ∷ Drain 0 0 ∷ [])
        (2 ∷ 0 ∷ []) (1 ∷ 2 ∷ 3 ∷ 0 ∷ []) }
    ensures one_word { is_enabled Pso None own_stores
        (final Pso None own_stores (Execute 0 ∷ Execute 0 ∷ [])) (Drain 0 1) ≡ false }
    ensures unordered { LeadsTo Pso Unordered own_stores (Execute 0 ∷ Execute 0 ∷ Drain 0 1 ∷ Drain 0 0 ∷ Execute 0 ∷ [])
        (1 ∷ []) (1 ∷ 0 ∷ 2 ∷ []) }
{}

/// A store fence waits in the buffer and is passed by no store, but not with the fault `NoFence`, where it takes effect when it is executed.
pub fn store_fences_wait_in_buffers()
    ensures held_back { is_enabled Pso None message_passing_partial_fences
        (final Pso None message_passing_partial_fences (Execute 0 ∷ Execute 0 ∷ Execute 0 ∷ [])) (Drain 0 2) ≡ false }
    ensures fence_held_back { is_enabled Pso None message_passing_partial_fences
        (final Pso None message_passing_partial_fences (Execute 0 ∷ Execute 0 ∷ Execute 0 ∷ [])) (Drain 0 1) ≡ false }
    ensures play { LeadsTo Pso None message_passing_partial_fences
        (Execute 0 ∷ Execute 0 ∷ Execute 0 ∷ Drain 0 0 ∷ Drain 0 0 ∷ Execute 1 ∷ Drain 0 0 ∷ Execute 1 ∷ Execute 1 ∷ [])
        (0 ∷ 1 ∷ []) (0 ∷ 1 ∷ 3 ∷ 2 ∷ 4 ∷ 5 ∷ []) }
    ensures no_fence { LeadsTo Pso NoFence message_passing_partial_fences
        (Execute 0 ∷ Execute 0 ∷ Execute 0 ∷ Drain 0 1 ∷ Execute 1 ∷ Execute 1 ∷ Execute 1 ∷ Drain 0 0 ∷ [])
        (2 ∷ 0 ∷ []) (1 ∷ 2 ∷ 3 ∷ 4 ∷ 5 ∷ 0 ∷ []) }
{}

/// A play has a step for each operation, and one more for each store and store fence where these wait in buffers. With the fault `NoFence` a store fence doesn't.
pub fn steps_of_a_whole_play()
    ensures sc { steps_left Sc None message_passing_partial_fences opening ≡ 6 }
    ensures tso { steps_left Tso None message_passing_partial_fences opening ≡ 9 }
    ensures tso_no_fence { steps_left Tso NoFence message_passing_partial_fences opening ≡ 8 }
    ensures pso { steps_left Pso None message_passing_partial_fences opening ≡ 9 }
    ensures pso_no_fence { steps_left Pso NoFence message_passing_partial_fences opening ≡ 8 }
    ensures weak { steps_left Weak None message_passing_partial_fences opening ≡ 6 }
    ensures weak_no_fence { steps_left Weak NoFence message_passing_partial_fences opening ≡ 6 }
    // Two executed, one of them in memory.
    ensures later { steps_left Tso None own_stores (final Tso None own_stores (Execute 0 ∷ Execute 0 ∷ Drain 0 0 ∷ [])) ≡ 2 }
{}

/// The choices at the start: the first operation of each thread, or on the weak machine each operation that waits for none.
pub fn choices_at_the_start()
    ensures sc { choices Sc None message_passing opening ≡ Execute 0 ∷ Execute 1 ∷ [] }
    ensures tso { choices Tso None message_passing opening ≡ Execute 0 ∷ Execute 1 ∷ [] }
    ensures pso { choices Pso None message_passing opening ≡ Execute 0 ∷ Execute 1 ∷ [] }
    ensures weak { choices Weak None message_passing opening
        ≡ Perform 0 0 ∷ Perform 0 1 ∷ Perform 1 0 ∷ Perform 1 1 ∷ [] }
    ensures partial { choices Weak None message_passing_partial_fences opening ≡ Perform 0 0 ∷ Perform 1 0 ∷ [] }
    ensures partial_no_fence { choices Weak NoFence message_passing_partial_fences opening
        ≡ Perform 0 0 ∷ Perform 0 1 ∷ Perform 0 2 ∷ Perform 1 0 ∷ Perform 1 1 ∷ Perform 1 2 ∷ [] }
    ensures load_load { choices Weak LoadLoad (one_store_loads 2) opening
        ≡ Perform 0 0 ∷ Perform 1 0 ∷ Perform 1 1 ∷ [] }
{}

/// The choices with two stores in a buffer: the next operation first, then the places that may be drained.
pub fn choices_with_two_buffered_stores()
    ensures tso { choices Tso None message_passing (final Tso None message_passing (Execute 0 ∷ Execute 0 ∷ []))
        ≡ Drain 0 0 ∷ Execute 1 ∷ [] }
    ensures tso_unordered { choices Tso Unordered own_stores (final Tso Unordered own_stores (Execute 0 ∷ Execute 0 ∷ []))
        ≡ Execute 0 ∷ Drain 0 0 ∷ Drain 0 1 ∷ [] }
    ensures pso { choices Pso None message_passing (final Pso None message_passing (Execute 0 ∷ Execute 0 ∷ []))
        ≡ Drain 0 0 ∷ Drain 0 1 ∷ Execute 1 ∷ [] }
    ensures pso_one_word { choices Pso None own_stores (final Pso None own_stores (Execute 0 ∷ Execute 0 ∷ []))
        ≡ Execute 0 ∷ Drain 0 0 ∷ [] }
{}
