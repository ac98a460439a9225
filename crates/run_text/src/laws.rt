//! Laws of texts of runs, over the definitions alone.
ghost use Rattle.std.specs.Prelude.{◌≡◌, ◌↔◌, ◌++◌, List, [], ℕ, false, map, Result, Ok, Err};
ghost use Rattle.std.specs.List.{concat};
ghost use Rattle.run_text.specs.declared.fault.RunFault.{RunFault};
ghost use Rattle.run_text.specs.Reader.{Reader, turn};
ghost use Rattle.run_text.specs.Items.{IsTextOf};
ghost use Rattle.run_text.specs.Pieces.{AreCut, EndsInFeed, joined, piece_read, piece_reader, read_behind, reads_bytes};
ghost use Rattle.run_text.specs.Runs.{AreRunsOf, IsLineOfRun, IsRefused, RunsMean, go_on, reading, runs_text};

/// Reading all lines is reading one and then those behind it.
pub fn lines_are_read_in_turn()
    ensures { (reader : Reader) → reading reader ≡ go_on reading (turn reader) }
{}

/// What reading all lines gives is what the text means: the runs whose text it is, or why it is refused.
pub fn runs_are_read()
    ensures read { (reader : Reader) (runs : List (List ℕ)) → reader.is_done ≡ false →
        (reading reader ≡ Ok runs) ↔ IsTextOf (IsLineOfRun reader.loads) runs reader.left [] }
    ensures refused { (reader : Reader) (fault : RunFault) → reader.is_done ≡ false →
        (reading reader ≡ Err fault) ↔ IsRefused reader fault }
    ensures meant { (reader : Reader) (meant : Result (List (List ℕ)) RunFault) →
        reader.is_done ≡ false → (reading reader ≡ meant) ↔ RunsMean reader meant }
{}

/// Runs have one text.
pub fn runs_have_one_text()
    ensures { (loads : ℕ) (runs : List (List ℕ)) (text rest : List ℕ) →
        IsTextOf (IsLineOfRun loads) runs text rest
        ↔ (AreRunsOf loads runs × (text ≡ runs_text runs ++ rest)) }
{}

/// Reading a text is reading its first piece, which ends in a line feed, and then the bytes behind it.
pub fn a_piece_is_read_first()
    ensures { (reader : Reader) (piece behind : List ℕ) → reader.is_done ≡ false →
        EndsInFeed piece → reader.left ≡ piece ++ behind →
        reading reader ≡ read_behind reader behind (piece_read (reads_bytes reader piece)) }
{}

/// Reading a text is reading each of its pieces by itself, and then joining what they give.
pub fn pieces_are_read()
    ensures { (reader : Reader) (pieces : List (List ℕ)) → reader.is_done ≡ false →
        AreCut pieces → reader.left ≡ concat pieces →
        reading reader ≡ joined (map (λ piece. piece_read (piece_reader reader.loads piece)) pieces) reader.line }
{}
