ghost use Rattle.std.specs.Prelude.{◌≡◌};
ghost use Rattle.linked_list.specs.Laws.{NoLongerThanContainer, EntriesAreThere, ListsAreApart, ListsAreRead};

/// What holds of the lists of any container; the answer is 0.
pub fn lists_stand() -> u8
    ensures answer { result ≡ 0 }
    ensures bounded { NoLongerThanContainer }
    ensures there { EntriesAreThere }
    ensures apart { ListsAreApart }
    ensures read { ListsAreRead }
{
    0
}
