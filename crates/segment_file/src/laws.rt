//! What holds of the bytes of all objects.
ghost use Rattle.segment_file.specs.Laws.{LightPushesHaveRoom, NoObjectIsBroken, NoSoundFileIsBroken, ObjectsAreSound, OneFault, OneFile, OneObject, SoundFilesAreObjects};

/// Bytes spell one object, and what spells an object has no fault. It does nothing: its clauses are the law.
pub fn objects_have_one_spelling()
    ensures file { OneFile }
    ensures object { OneObject }
    ensures sound { ObjectsAreSound }
    ensures unbroken { NoObjectIsBroken }
{}

/// A whole file that breaks no rule is an object's: so it is decoded, as memory allows. It does nothing: its clause is the
/// law.
pub fn each_file_decodes()
    ensures { SoundFilesAreObjects }
{}

/// Bytes have one first fault, or none where they are a whole file that breaks no rule. It does nothing: its clauses
/// are the law.
pub fn bytes_have_one_fault()
    ensures one { OneFault }
    ensures none { NoSoundFileIsBroken }
{}

/// Pushes within their limit of weight have room in an object. It does nothing: its clause is the law.
pub fn light_pushes_have_room()
    ensures { LightPushesHaveRoom }
{}
