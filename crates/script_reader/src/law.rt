// What a client of a script has to do.
ghost use Rattle.std.specs.Prelude.{◌≡◌, ℕ, List, None, Ok, false};
ghost use Rattle.std.specs.List.{list_any};
ghost use Rattle.script_reader.specs.declared.script.Script.{Script};
ghost use Rattle.script_reader.specs.Named.{has_name, line_of_client};
ghost use Rattle.script_reader.specs.Script.{script_of};

/// A law, which does nothing: if no line of a script is of one of these names, none of them is a client of the script.
pub fn client_law()
    ensures { (names : List (List ℕ)) (bytes : List ℕ) (script : Script) → script_of bytes ≡ Ok script
        → line_of_client names bytes ≡ None → list_any (has_name names) script.names ≡ false }
{}
