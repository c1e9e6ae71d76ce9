// What is true of truth on looping runs, of any length and over any letters.
ghost use Rattle.pltl.specs.Theorems.{ExactlyOne, NormalKeepsTruth, Periodic, Suffixes, ReleaseByUntil};

pub fn truth_stands()
    ensures exactly_one { ExactlyOne }
    ensures normal_keeps_truth { NormalKeepsTruth }
    ensures periodic { Periodic }
    ensures suffixes { Suffixes }
    ensures release_by_until { ReleaseByUntil }
{}
