// Laws over the definitions.
ghost use Rattle.script_text.specs.Telling.{LinesSayOneThing};

/// Each line says one thing and no other: that it has no reply, one command, or at one column that it has none.
pub fn lines_say_one_thing()
    ensures { LinesSayOneThing }
{}
