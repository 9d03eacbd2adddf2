// Laws on the schemas of texts.
ghost use Rattle.psdl_sound.specs.BaseLayouts.{KeysKeepMembers, LayoutsBeginWithBases};
ghost use Rattle.psdl_sound.specs.SoundCatalogs.{SchemasHaveSoundCatalogs};
ghost use Rattle.psdl_sound.specs.SoundHomes.{SchemasHaveSoundHomes};
ghost use Rattle.psdl_sound.specs.SoundSchemas.{SchemasAreSound};
ghost use Rattle.psdl_sound.specs.TextLaws.{TextsAreNamed, TextsAreSmall, TextsAreSound, TextsHaveNames};

/// The schema of a text without a fault, whose identifiers are names, has sound homes and layouts.
pub fn schema_has_sound_homes()
    ensures { SchemasHaveSoundHomes }
{}

/// The schema of a text without a fault, whose identifiers are names, has sound keys, factories and catalogs, but for the types
/// of keys.
pub fn schema_has_sound_catalogs()
    ensures { SchemasHaveSoundCatalogs }
{}

/// The whole schema of such a text is sound, where its integer literals are below 2^127.
pub fn schema_is_sound()
    ensures { SchemasAreSound }
{}

/// The identifiers of each text that has a tree are names: a letter, and then letters, digits and
/// `_`. The tree has them without the `_` that a text may have in front.
pub fn identifiers_are_names()
    ensures { TextsHaveNames }
{}

/// In the schema of each text that has a tree, with faults or without, all names are identifiers:
/// those of members, keys, factories and provisions, and those of fields and enumerators within
/// the types of members. Homes and catalogs have identifiers with `::` between them.
pub fn schema_is_named()
    ensures { TextsAreNamed }
{}

/// The integer literals of each text that has a tree are below 2^127: those in the values of
/// constants, in bounds and in dimensions. A wider literal is no token.
pub fn literals_are_small()
    ensures { TextsAreSmall }
{}

/// The schema of each text that has a tree and no fault is sound. Nothing else is asked of the
/// text.
pub fn text_is_sound()
    ensures { TextsAreSound }
{}

/// In the schema of each text that has a tree and no fault, the members of a home begin with those
/// of its base, each with its name and type. So a key has the same members in each home that has
/// it: those of the home that introduces it.
pub fn layouts_begin_with_bases()
    ensures layouts { LayoutsBeginWithBases }
    ensures keys { KeysKeepMembers }
{}
