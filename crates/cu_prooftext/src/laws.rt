//! Laws: what a text says is one thing, and so is what a file says.
ghost use Rattle.std.specs.Prelude.{◌≡◌, List, ℕ};
ghost use Rattle.cu_calculus.specs.Gives.{Claim};
ghost use Rattle.cu_calculus.specs.Proof.{Step};
ghost use Rattle.cu_prooftext.specs.Faults.{IsTextOf};
ghost use Rattle.cu_prooftext.specs.Files.{IsFileOf};

/// A text is the text of one proof, with one list of claims.
pub fn texts_are_of_one_proof()
    ensures claims { (bytes : List ℕ) (claims others : List Claim) (steps more : List Step)
        → IsTextOf claims steps bytes → IsTextOf others more bytes → claims ≡ others }
    ensures steps { (bytes : List ℕ) (claims others : List Claim) (steps more : List Step)
        → IsTextOf claims steps bytes → IsTextOf others more bytes → steps ≡ more }
{}

/// A file is the file of one goal and one proof, with one list of claims.
pub fn files_are_of_one_goal()
    ensures goal { (bytes goal other : List ℕ) (claims others : List Claim) (steps more : List Step)
        → IsFileOf goal claims steps bytes → IsFileOf other others more bytes → goal ≡ other }
    ensures claims { (bytes goal other : List ℕ) (claims others : List Claim)
        (steps more : List Step)
        → IsFileOf goal claims steps bytes → IsFileOf other others more bytes → claims ≡ others }
    ensures steps { (bytes goal other : List ℕ) (claims others : List Claim)
        (steps more : List Step)
        → IsFileOf goal claims steps bytes → IsFileOf other others more bytes → steps ≡ more }
{}
