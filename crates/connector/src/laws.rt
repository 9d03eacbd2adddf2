// Laws of commands.
ghost use Rattle.std.specs.Prelude.{ℕ, List};
ghost use Rattle.type_layout.specs.declared.schema.Schema.{Schema};
ghost use Rattle.pss_machine.specs.declared.command.Command.TheVariants as commands;
ghost use Rattle.pss_machine.specs.declared.limits.Limits.{Limits};
ghost use Rattle.pss_machine.specs.Kept.{Kept};
ghost use Rattle.pss_machine.specs.Deciding.{decision};
ghost use Rattle.connector.specs.Storing.{IsUnstored};

/// A `get` changes no committed object and stores nothing, whatever is kept. The function does nothing: its contract is the law.
pub fn gets_store_nothing()
    ensures { (S : Schema) (limits : Limits) (k : Kept) (s : List ℕ) (entry : ℕ) (member : List ℕ) → IsUnstored k (decision S limits k (commands.Get s entry member)).effect }
{}
