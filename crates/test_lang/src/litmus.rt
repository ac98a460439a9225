//! Worked examples, computed from the definitions.
ghost use Rattle.std.specs.Prelude.{◌≡◌, ◌^◌, ◌-◌, ◌∷◌, [], map, length, replicate, None, Some};
ghost use Rattle.test_lang.specs.declared.op.MemModel.TheVariants.{Sc, Tso, Pso, Weak};
ghost use Rattle.test_lang.specs.Litmus.{store_buffering, store_buffering_fences, store_buffering_store_fences, store_buffering_load_fences, store_buffering_two_fences, load_buffering_load_fences, load_fence_first, store_fence_first, forwarding, message_passing, message_passing_fences, message_passing_partial_fences, own_store, own_stores, store_load_each, own_stores_and_other, two_stores_two_loads, two_writers, empty_thread, no_operations, one_store_loads};
ghost use Rattle.test_lang.specs.Program.{first_node, thread_at};
ghost use Rattle.test_lang.specs.Runs.{base_store, candidates, first_outside, outside_of};
ghost use Rattle.test_lang.specs.Signatures.{signature, groups, group_product};
ghost use Rattle.test_lang.specs.Edges.{IsLeastRunOrder, IsCanonicalRunCycle, HasNoRunOrder};
ghost use Rattle.test_lang.specs.EdgeList.{edge_list, kept_list};

/// The one candidate of a load behind two stores of its own thread is the last of them.
pub fn own_store_is_the_candidate()
    ensures base { base_store own_stores 2 ≡ Some 1 }
    ensures candidate { candidates own_stores 2 ≡ 2 ∷ [] }
    ensures inside { first_outside own_stores (2 ∷ []) ≡ None }
    ensures outside { first_outside own_stores (1 ∷ []) ≡ Some 2 }
{}

/// Behind a store of its own thread a load gives neither the initial value nor a value that nobody stores.
pub fn values_that_are_no_candidates()
    ensures candidate { candidates own_store 1 ≡ 1 ∷ [] }
    ensures initial { outside_of own_store (0 ∷ []) ≡ Some (1, 0) }
    ensures unknown { outside_of own_store (9 ∷ []) ≡ Some (1, 9) }
{}

/// Two stores against two loads: each load has three candidates, and so two places make a number of two digits to the base 3.
pub fn places_are_digits()
    ensures first { signature two_stores_two_loads (2 ∷ 1 ∷ []) ≡ 5 ∷ [] }
    ensures second { signature two_stores_two_loads (1 ∷ 2 ∷ []) ≡ 7 ∷ [] }
{}

/// In store buffering each thread has a word of its own.
pub fn each_thread_has_a_word()
    ensures zero { signature store_buffering (0 ∷ 0 ∷ []) ≡ 0 ∷ 0 ∷ [] }
    ensures one { signature store_buffering (2 ∷ 0 ∷ []) ≡ 1 ∷ 0 ∷ [] }
{}

/// Sixty-four loads of two candidates fill a word; one more opens the next.
pub fn full_word()
    ensures full { map (group_product (one_store_loads 64)) (groups (one_store_loads 64))
        ≡ (2 ^ 64) ∷ [] }
    ensures more { map length (groups (one_store_loads 65)) ≡ 64 ∷ 1 ∷ [] }
    ensures largest { signature (one_store_loads 65) (replicate 65 1) ≡ (2 ^ 64 - 1) ∷ 1 ∷ [] }
{}

/// Store buffering under `sc` where both loads give 0: the edges go round.
pub fn store_buffering_both_zero()
    ensures edges { edge_list Sc store_buffering (0 ∷ 0 ∷ [])
        ≡ (0, 1) ∷ (1, 2) ∷ (2, 3) ∷ (3, 0) ∷ [] }
    ensures none { HasNoRunOrder Sc store_buffering (0 ∷ 0 ∷ []) }
    ensures cycle { IsCanonicalRunCycle Sc store_buffering (0 ∷ 0 ∷ []) (0 ∷ 1 ∷ 2 ∷ 3 ∷ []) }
{}

/// Store buffering under `sc` where the first load gives 0: the first thread may come first.
pub fn store_buffering_first_zero()
    ensures edges { edge_list Sc store_buffering (0 ∷ 1 ∷ [])
        ≡ (0, 1) ∷ (0, 3) ∷ (1, 2) ∷ (2, 3) ∷ [] }
    ensures order { IsLeastRunOrder Sc store_buffering (0 ∷ 1 ∷ []) (0 ∷ 1 ∷ 2 ∷ 3 ∷ []) }
{}

/// Store buffering under `sc` where the second load gives 0: the second thread comes first.
pub fn store_buffering_second_zero()
    ensures edges { edge_list Sc store_buffering (2 ∷ 0 ∷ [])
        ≡ (0, 1) ∷ (2, 1) ∷ (2, 3) ∷ (3, 0) ∷ [] }
    ensures order { IsLeastRunOrder Sc store_buffering (2 ∷ 0 ∷ []) (2 ∷ 3 ∷ 0 ∷ 1 ∷ []) }
{}

/// Store buffering under `sc` where no load gives 0: both stores come first.
pub fn store_buffering_none_zero()
    ensures edges { edge_list Sc store_buffering (2 ∷ 1 ∷ [])
        ≡ (0, 1) ∷ (0, 3) ∷ (2, 1) ∷ (2, 3) ∷ [] }
    ensures order { IsLeastRunOrder Sc store_buffering (2 ∷ 1 ∷ []) (0 ∷ 2 ∷ 1 ∷ 3 ∷ []) }
{}

/// Under `tso` the stores of store buffering may come after the loads.
pub fn store_buffering_under_tso()
    ensures edges { edge_list Tso store_buffering (0 ∷ 0 ∷ []) ≡ (1, 2) ∷ (3, 0) ∷ [] }
    ensures order { IsLeastRunOrder Tso store_buffering (0 ∷ 0 ∷ []) (1 ∷ 2 ∷ 3 ∷ 0 ∷ []) }
    ensures pso { edge_list Pso store_buffering (0 ∷ 0 ∷ []) ≡ (1, 2) ∷ (3, 0) ∷ [] }
{}

/// With full fences in store buffering no model lets both loads give 0. Only `sc` keeps a store before a load past the fence too, and so has a shorter cycle.
pub fn store_buffering_with_fences()
    ensures sc { IsCanonicalRunCycle Sc store_buffering_fences (0 ∷ 0 ∷ [])
        (0 ∷ 2 ∷ 3 ∷ 5 ∷ []) }
    ensures tso { IsCanonicalRunCycle Tso store_buffering_fences (0 ∷ 0 ∷ [])
        (0 ∷ 1 ∷ 2 ∷ 3 ∷ 4 ∷ 5 ∷ []) }
    ensures pso { IsCanonicalRunCycle Pso store_buffering_fences (0 ∷ 0 ∷ [])
        (0 ∷ 1 ∷ 2 ∷ 3 ∷ 4 ∷ 5 ∷ []) }
    ensures weak { IsCanonicalRunCycle Weak store_buffering_fences (0 ∷ 0 ∷ [])
        (0 ∷ 1 ∷ 2 ∷ 3 ∷ 4 ∷ 5 ∷ []) }
{}

/// Store fences don't make a load wait: in store buffering both loads may give 0 past them, but under `sc`.
pub fn store_buffering_with_store_fences()
    ensures sc { IsCanonicalRunCycle Sc store_buffering_store_fences (0 ∷ 0 ∷ [])
        (0 ∷ 2 ∷ 3 ∷ 5 ∷ []) }
    ensures kept { kept_list Tso store_buffering_store_fences ≡ (0, 1) ∷ (3, 4) ∷ [] }
    ensures tso { IsLeastRunOrder Tso store_buffering_store_fences (0 ∷ 0 ∷ [])
        (2 ∷ 3 ∷ 4 ∷ 5 ∷ 0 ∷ 1 ∷ []) }
    ensures pso { IsLeastRunOrder Pso store_buffering_store_fences (0 ∷ 0 ∷ [])
        (2 ∷ 3 ∷ 4 ∷ 5 ∷ 0 ∷ 1 ∷ []) }
    ensures weak { IsLeastRunOrder Weak store_buffering_store_fences (0 ∷ 0 ∷ [])
        (2 ∷ 3 ∷ 4 ∷ 5 ∷ 0 ∷ 1 ∷ []) }
{}

/// Nor do load fences hold a store back from a later load.
pub fn store_buffering_with_load_fences()
    ensures sc { IsCanonicalRunCycle Sc store_buffering_load_fences (0 ∷ 0 ∷ [])
        (0 ∷ 2 ∷ 3 ∷ 5 ∷ []) }
    ensures kept { kept_list Tso store_buffering_load_fences ≡ (1, 2) ∷ (4, 5) ∷ [] }
    ensures tso { IsLeastRunOrder Tso store_buffering_load_fences (0 ∷ 0 ∷ [])
        (1 ∷ 2 ∷ 3 ∷ 4 ∷ 5 ∷ 0 ∷ []) }
    ensures pso { IsLeastRunOrder Pso store_buffering_load_fences (0 ∷ 0 ∷ [])
        (1 ∷ 2 ∷ 3 ∷ 4 ∷ 5 ∷ 0 ∷ []) }
    ensures weak { IsLeastRunOrder Weak store_buffering_load_fences (0 ∷ 0 ∷ [])
        (1 ∷ 2 ∷ 3 ∷ 4 ∷ 5 ∷ 0 ∷ []) }
{}

/// A store fence and then a load fence are no full fence.
pub fn store_buffering_with_two_fences()
    ensures sc { IsCanonicalRunCycle Sc store_buffering_two_fences (0 ∷ 0 ∷ [])
        (0 ∷ 3 ∷ 4 ∷ 7 ∷ []) }
    ensures tso { IsLeastRunOrder Tso store_buffering_two_fences (0 ∷ 0 ∷ [])
        (2 ∷ 3 ∷ 4 ∷ 5 ∷ 6 ∷ 7 ∷ 0 ∷ 1 ∷ []) }
    ensures pso { IsLeastRunOrder Pso store_buffering_two_fences (0 ∷ 0 ∷ [])
        (2 ∷ 3 ∷ 4 ∷ 5 ∷ 6 ∷ 7 ∷ 0 ∷ 1 ∷ []) }
    ensures weak { IsLeastRunOrder Weak store_buffering_two_fences (0 ∷ 0 ∷ [])
        (2 ∷ 3 ∷ 4 ∷ 5 ∷ 6 ∷ 7 ∷ 0 ∷ 1 ∷ []) }
{}

/// Load buffering with load fences, where each load gives the store of the other thread: a cycle but under `weak`, where a load fence doesn't hold stores back.
pub fn load_buffering_with_load_fences()
    ensures sc { IsCanonicalRunCycle Sc load_buffering_load_fences (2 ∷ 1 ∷ [])
        (0 ∷ 2 ∷ 3 ∷ 5 ∷ []) }
    ensures tso { IsCanonicalRunCycle Tso load_buffering_load_fences (2 ∷ 1 ∷ [])
        (0 ∷ 2 ∷ 3 ∷ 5 ∷ []) }
    ensures pso { IsCanonicalRunCycle Pso load_buffering_load_fences (2 ∷ 1 ∷ [])
        (0 ∷ 2 ∷ 3 ∷ 5 ∷ []) }
    ensures weak { IsLeastRunOrder Weak load_buffering_load_fences (2 ∷ 1 ∷ [])
        (2 ∷ 3 ∷ 4 ∷ 5 ∷ 0 ∷ 1 ∷ []) }
{}

/// Fences at the ends of a thread: `tso` and `pso` let a load-like operation pass a store-like one alone, and `weak` keeps like beside like.
pub fn partial_fences_at_the_ends()
    ensures load_tso { kept_list Tso load_fence_first
        ≡ (0, 1) ∷ (0, 2) ∷ (0, 3) ∷ (1, 3) ∷ (2, 3) ∷ [] }
    ensures load_pso { kept_list Pso load_fence_first
        ≡ (0, 1) ∷ (0, 2) ∷ (0, 3) ∷ (1, 3) ∷ (2, 3) ∷ [] }
    ensures load_weak { kept_list Weak load_fence_first ≡ (0, 2) ∷ (1, 3) ∷ [] }
    ensures store_tso { kept_list Tso store_fence_first ≡ (0, 1) ∷ (2, 3) ∷ [] }
    ensures store_pso { kept_list Pso store_fence_first ≡ (0, 1) ∷ (2, 3) ∷ [] }
    ensures store_weak { kept_list Weak store_fence_first ≡ (0, 1) ∷ (2, 3) ∷ [] }
{}

/// Two stores to one word stay in order under each model, and only `sc` keeps them before a load of that word.
pub fn stores_to_one_word_keep_their_order()
    ensures sc { kept_list Sc own_stores ≡ (0, 1) ∷ (0, 2) ∷ (1, 2) ∷ [] }
    ensures tso { kept_list Tso own_stores ≡ (0, 1) ∷ [] }
    ensures pso { kept_list Pso own_stores ≡ (0, 1) ∷ [] }
    ensures weak { kept_list Weak own_stores ≡ (0, 1) ∷ [] }
{}

/// Forwarding: each thread's first load gives its own store, and its second load doesn't see the other's yet. Only under `sc` is that a cycle.
pub fn loads_see_own_stores_first()
    ensures sc { IsCanonicalRunCycle Sc forwarding (1 ∷ 0 ∷ 2 ∷ 0 ∷ []) (0 ∷ 2 ∷ 3 ∷ 5 ∷ []) }
    ensures tso { IsLeastRunOrder Tso forwarding (1 ∷ 0 ∷ 2 ∷ 0 ∷ [])
        (1 ∷ 2 ∷ 3 ∷ 4 ∷ 5 ∷ 0 ∷ []) }
    ensures pso { IsLeastRunOrder Pso forwarding (1 ∷ 0 ∷ 2 ∷ 0 ∷ [])
        (1 ∷ 2 ∷ 3 ∷ 4 ∷ 5 ∷ 0 ∷ []) }
    ensures weak { IsLeastRunOrder Weak forwarding (1 ∷ 0 ∷ 2 ∷ 0 ∷ [])
        (1 ∷ 2 ∷ 3 ∷ 4 ∷ 5 ∷ 0 ∷ []) }
{}

/// Message passing: `sc` and `tso` keep the two stores and the two loads in order, `pso` the two loads, and `weak` keeps nothing.
pub fn message_passing_kept_pairs()
    ensures sc { kept_list Sc message_passing ≡ (0, 1) ∷ (2, 3) ∷ [] }
    ensures tso { kept_list Tso message_passing ≡ (0, 1) ∷ (2, 3) ∷ [] }
    ensures pso { kept_list Pso message_passing ≡ (2, 3) ∷ [] }
    ensures weak { kept_list Weak message_passing ≡ [] }
{}

/// Message passing where the flag is seen and the data aren't: a cycle where the pairs are kept, and an order under `pso` and `weak`.
pub fn message_passing_old_data()
    ensures sc { IsCanonicalRunCycle Sc message_passing (2 ∷ 0 ∷ []) (0 ∷ 1 ∷ 2 ∷ 3 ∷ []) }
    ensures tso { IsCanonicalRunCycle Tso message_passing (2 ∷ 0 ∷ []) (0 ∷ 1 ∷ 2 ∷ 3 ∷ []) }
    ensures pso { IsLeastRunOrder Pso message_passing (2 ∷ 0 ∷ []) (1 ∷ 2 ∷ 3 ∷ 0 ∷ []) }
    ensures weak { IsLeastRunOrder Weak message_passing (2 ∷ 0 ∷ []) (1 ∷ 2 ∷ 3 ∷ 0 ∷ []) }
{}

/// With full fences it is a cycle under each model: past the fences where the model keeps such pairs, and through them elsewhere.
pub fn message_passing_with_fences()
    ensures sc { IsCanonicalRunCycle Sc message_passing_fences (2 ∷ 0 ∷ [])
        (0 ∷ 2 ∷ 3 ∷ 5 ∷ []) }
    ensures tso { IsCanonicalRunCycle Tso message_passing_fences (2 ∷ 0 ∷ [])
        (0 ∷ 2 ∷ 3 ∷ 5 ∷ []) }
    ensures pso { IsCanonicalRunCycle Pso message_passing_fences (2 ∷ 0 ∷ [])
        (0 ∷ 1 ∷ 2 ∷ 3 ∷ 5 ∷ []) }
    ensures weak { IsCanonicalRunCycle Weak message_passing_fences (2 ∷ 0 ∷ [])
        (0 ∷ 1 ∷ 2 ∷ 3 ∷ 4 ∷ 5 ∷ []) }
{}

/// A store fence between the stores and a load fence between the loads do the same.
pub fn message_passing_with_partial_fences()
    ensures sc { IsCanonicalRunCycle Sc message_passing_partial_fences (2 ∷ 0 ∷ [])
        (0 ∷ 2 ∷ 3 ∷ 5 ∷ []) }
    ensures tso { IsCanonicalRunCycle Tso message_passing_partial_fences (2 ∷ 0 ∷ [])
        (0 ∷ 2 ∷ 3 ∷ 5 ∷ []) }
    ensures pso { IsCanonicalRunCycle Pso message_passing_partial_fences (2 ∷ 0 ∷ [])
        (0 ∷ 1 ∷ 2 ∷ 3 ∷ 5 ∷ []) }
    ensures weak { IsCanonicalRunCycle Weak message_passing_partial_fences (2 ∷ 0 ∷ [])
        (0 ∷ 1 ∷ 2 ∷ 3 ∷ 4 ∷ 5 ∷ []) }
{}

/// Each of two loads gives the other thread's store over its own: each store then comes before the other, which is a cycle under each model.
pub fn each_load_gives_the_other_store()
    ensures edges { edge_list Weak store_load_each (2 ∷ 1 ∷ [])
        ≡ (0, 2) ∷ (0, 3) ∷ (2, 0) ∷ (2, 1) ∷ [] }
    ensures sc { IsCanonicalRunCycle Sc store_load_each (2 ∷ 1 ∷ []) (0 ∷ 2 ∷ []) }
    ensures tso { IsCanonicalRunCycle Tso store_load_each (2 ∷ 1 ∷ []) (0 ∷ 2 ∷ []) }
    ensures pso { IsCanonicalRunCycle Pso store_load_each (2 ∷ 1 ∷ []) (0 ∷ 2 ∷ []) }
    ensures weak { IsCanonicalRunCycle Weak store_load_each (2 ∷ 1 ∷ []) (0 ∷ 2 ∷ []) }
    // A load of its own store orders nothing.
    ensures own { edge_list Weak store_load_each (1 ∷ 2 ∷ []) ≡ [] }
{}

/// The last of a thread's stores comes before the store of another that is read behind it, and not the first.
pub fn last_own_store_comes_before()
    ensures edges { edge_list Weak own_stores_and_other (3 ∷ [])
        ≡ (0, 1) ∷ (1, 3) ∷ (3, 2) ∷ [] }
{}

/// Two loads of one word that see two stores of another thread in the wrong order: a cycle under each model. In the right order all is well.
pub fn loads_of_one_word_keep_their_order()
    ensures sc { IsCanonicalRunCycle Sc two_stores_two_loads (2 ∷ 1 ∷ []) (1 ∷ 2 ∷ 3 ∷ []) }
    ensures tso { IsCanonicalRunCycle Tso two_stores_two_loads (2 ∷ 1 ∷ []) (1 ∷ 2 ∷ 3 ∷ []) }
    ensures pso { IsCanonicalRunCycle Pso two_stores_two_loads (2 ∷ 1 ∷ []) (1 ∷ 2 ∷ 3 ∷ []) }
    ensures weak { IsCanonicalRunCycle Weak two_stores_two_loads (2 ∷ 1 ∷ []) (1 ∷ 2 ∷ 3 ∷ []) }
    ensures right { IsLeastRunOrder Weak two_stores_two_loads (1 ∷ 2 ∷ []) (0 ∷ 2 ∷ 1 ∷ 3 ∷ []) }
{}

/// Nothing orders the stores of two threads: a third may see either.
pub fn stores_of_two_threads_have_no_edge()
    ensures first { IsLeastRunOrder Sc two_writers (1 ∷ []) (0 ∷ 1 ∷ 2 ∷ []) }
    ensures second { IsLeastRunOrder Sc two_writers (2 ∷ []) (0 ∷ 1 ∷ 2 ∷ []) }
{}

/// An empty thread has a number and no node, and a test without operations has one order, of no nodes.
pub fn empty_threads_have_no_node()
    ensures number { thread_at empty_thread 1 ≡ Some 2 }
    ensures first { first_node empty_thread 1 ≡ 1 }
    ensures seen { IsLeastRunOrder Sc empty_thread (1 ∷ []) (0 ∷ 1 ∷ []) }
    ensures unseen { IsLeastRunOrder Sc empty_thread (0 ∷ []) (1 ∷ 0 ∷ []) }
    ensures words { signature no_operations [] ≡ [] }
    ensures order { IsLeastRunOrder Sc no_operations [] [] }
{}
