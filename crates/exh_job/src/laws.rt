//! What holds of texts that the program prints and reads again. The function changes nothing.
ghost use Rattle.exh_report.specs.declared.other_settings.OtherSettings.{OtherSettings};
ghost use Rattle.exh_job.specs.PairsAgain.{PairsLoadAgain};

use exh_load::loads_are_one_maps;
use exh_report::legal_bytes_are_files;

/// Of the text of a legal file's pairs a load makes a file of the same map.
pub fn pairs_load_again()
    ensures { (other : OtherSettings) → PairsLoadAgain other }
{
    legal_bytes_are_files();
    loads_are_one_maps();
}
