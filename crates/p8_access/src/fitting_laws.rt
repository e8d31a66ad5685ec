// Laws of courses and lives by their answers. The functions do nothing: their contracts are the laws.
ghost use Rattle.std.specs.Prelude.{◌≡◌, ◌++◌, ℕ, List};
ghost use Rattle.p8_access.specs.Courses.{Course, Told, told};
ghost use Rattle.p8_access.specs.Replays.{Engine, retold};
ghost use Rattle.p8_access.specs.declared.kinds.Access.{Access};
ghost use Rattle.p8_access.specs.declared.kinds.Answer.{Answer};
ghost use Rattle.p8_access.specs.Fitting.{IsToldFitting, TakesFitting, IsRetoldFitting, LivesFitting};

/// Where each answer that a course takes fits its access, the reading that takes any answer and the one that ends the list at
/// the first that doesn't fit are the same.
pub fn lists_that_fit_are_told<S>()
    ensures told { (cog : ℕ) (made : List Access) (course : Course S) (answers : List Answer) → TakesFitting cog course answers →
        IsToldFitting cog made course answers (told cog made course answers) }
    ensures only { (cog : ℕ) (made : List Access) (course : Course S) (answers : List Answer) (t : Told S) → TakesFitting cog course answers →
        IsToldFitting cog made course answers t → t ≡ told cog made course answers }
{}

/// The reading that ends the list is the other one of a beginning of it, of which each answer that the course takes fits.
pub fn a_course_ends_its_list<S>()
    ensures { (cog : ℕ) (made : List Access) (course : Course S) (answers : List Answer) (t : Told S) → IsToldFitting cog made course answers t →
        (kept left : List Answer) × (kept ++ left ≡ answers) × TakesFitting cog course kept × (t ≡ told cog made course kept) }
{}

/// Where each answer that a life takes fits, the two readings are the same, course by course.
pub fn lives_that_fit_are_retold<S>()
    ensures told { (e : Engine S) (first : Course S) (count : ℕ) (answers : List Answer) → LivesFitting e first count answers →
        IsRetoldFitting e first count answers (retold e first count answers) }
    ensures only { (e : Engine S) (first : Course S) (count : ℕ) (answers : List Answer) (t : Told S) → LivesFitting e first count answers →
        IsRetoldFitting e first count answers t → t ≡ retold e first count answers }
{}
