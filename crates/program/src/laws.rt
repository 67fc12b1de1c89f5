//! A law of the table of words. The function runs nothing: its contract is the law.

ghost use Rattle.std.specs.Prelude.{◌≡◌, ◌∷◌, [], Some, codes, false, option_map, true};
ghost use Rattle.clap.specs.Words.{first_of, subcommand_of, takes};
ghost use Rattle.program.specs.Table.{program_app};

/// Words of a replay with its three files are taken, and those without the last are not. They name the replay, and give
/// it the value of its option.
pub fn replay_words()
    ensures taken { takes program_app
        (codes "taprio_port" ∷ codes "replay" ∷ codes "--until" ∷ codes "2ms" ∷ codes "script" ∷
        codes "-" ∷ codes "out" ∷ []) ≡ true }
    ensures refused { takes program_app
        (codes "taprio_port" ∷ codes "replay" ∷ codes "script" ∷ codes "-" ∷ [])
        ≡ false }
    ensures named { option_map (λ sub. sub.0)
        (subcommand_of program_app
        (codes "taprio_port" ∷ codes "replay" ∷ codes "--until" ∷ codes "2ms" ∷ codes "script" ∷
        codes "-" ∷ codes "out" ∷ [])) ≡ Some (codes "replay") }
    ensures given { option_map (λ sub. first_of (codes "until") sub.1)
        (subcommand_of program_app
        (codes "taprio_port" ∷ codes "replay" ∷ codes "--until" ∷ codes "2ms" ∷ codes "script" ∷
        codes "-" ∷ codes "out" ∷ [])) ≡ Some (Some (codes "2ms")) }
{}
