//! What holds of the definitions. Each call does nothing: its clause is the law.
ghost use Rattle.picture_in.specs.Form.{HeaderIsFound, OnlyHeaderIsFound};
ghost use Rattle.picture_in.specs.Worked.{PlainWorked, CommentWorked, ZerosWorked, OpenCommentWorked};

/// What stands behind a header, as it is computed from byte to byte, is what stands behind parts of the form: `P6`, a gap
/// and 600, a gap and 600, a gap and 255, and one white byte. Nothing is found where no such parts stand in front.
pub fn headers_are_of_the_form()
    ensures found { HeaderIsFound }
    ensures only { OnlyHeaderIsFound }
{}

/// Worked headers: the usual one, one with a comment, one with leading zeros, and one that a comment ends.
pub fn headers_worked()
    ensures plain { PlainWorked }
    ensures comment { CommentWorked }
    ensures zeros { ZerosWorked }
    ensures open { OpenCommentWorked }
{}
